//! Where a run finds its files, and makes one.
ghost use Rattle.std.specs.Prelude.{◌≡◌, ◌≤◌, ◌||◌, Bool, Option, None, Some, IfOk, OnErr, OnOk};
ghost use Rattle.std.specs.Prelude.{is_err, is_some, length, true};
ghost use Rattle.hunk_run.specs.Settling.{has_lost};
ghost use Rattle.hunk_run.specs.Stores.{Holdings, Leaves, MadeFile, Makes, asked_to_keep};
ghost use Rattle.hunk_run.specs.Stores.{bytes_of_input, fails_to_write, written_to};

use hunk_words::FromRead;
use std::io;
use std::io::Read;

/// Where a run finds its files, and makes one.
///
/// Contracts see its `holdings`, the bytes of its files and of standard input, where they are
/// known, and `made`, the one file that it makes, once it has: by which name, what that has taken,
/// and what it answered when it was last asked to keep that. They also see `opened`, whether an
/// input was opened, and `failed`, whether it has failed to open, read, make, write or keep a file:
/// such an answer sets it, and nothing else does, for good.
pub trait Store {
    /// A file that is read.
    type File: Read + Drop;
    /// Standard input.
    type Input: Read + Drop;

    ghost holdings: { Self → Holdings };

    ghost made: { Self → Option MadeFile };

    ghost opened: { Self → Bool };

    ghost failed: { Self → Bool };

    /// Opens the file of this name, which is read from its start. What is known of its bytes is so
    /// as long as no file was made; once an input was opened, only of a file that can be read again.
    ///
    /// # Errors
    ///
    /// What the system says where it can't be opened.
    fn open(&mut self, name: &str) -> io::Result<Self::File>
        ensures reads { IfOk result (λ file. Leaves
            (bytes_of_input (holdings self.old) (opened self.old) (made self.old) (Some name.now))
            (Self.File.remaining file)) }
        ensures opens { opened self.new ≡ true }
        ensures fails { failed self.new ≡ (failed self.old || is_err result) }
        ensures makes { made self.new ≡ made self.old }
        ensures holds { holdings self.new ≡ holdings self.old };

    /// Whether the file of this name can be read again from its start, as a regular file can be, and
    /// a pipe can't.
    fn is_regular(&self, name: &str) -> bool
        ensures { result ≡ true → (holdings self.now).again name.now ≡ true };

    /// Standard input, from where it stands. What is known of its bytes is so where no input was
    /// opened before.
    fn input(&mut self) -> Self::Input
        ensures reads { Leaves
            (bytes_of_input (holdings self.old) (opened self.old) (made self.old) None)
            (Self.Input.remaining result) }
        ensures opens { opened self.new ≡ true }
        ensures works { failed self.new ≡ failed self.old }
        ensures makes { made self.new ≡ made self.old }
        ensures holds { holdings self.new ≡ holdings self.old };

    /// Takes back a file that was read, and gives the last error of it.
    fn close(&mut self, file: FromRead<Self::File>) -> Option<io::Error>
        ensures tells { result ≡ file.error }
        ensures fails { failed self.new ≡ (failed self.old || is_some file.error) }
        ensures opens { opened self.new ≡ opened self.old }
        ensures makes { made self.new ≡ made self.old }
        ensures holds { holdings self.new ≡ holdings self.old };

    /// Takes back standard input, and gives the last error of it.
    fn close_input(&mut self, input: FromRead<Self::Input>) -> Option<io::Error>
        ensures tells { result ≡ input.error }
        ensures fails { failed self.new ≡ (failed self.old || is_some input.error) }
        ensures opens { opened self.new ≡ opened self.old }
        ensures makes { made self.new ≡ made self.old }
        ensures holds { holdings self.new ≡ holdings self.old };

    /// Makes the file of this name: a new one, or the one that is there, which is emptied. A store
    /// makes one file and no other.
    ///
    /// # Errors
    ///
    /// What the system says where it can't be made, or one was made before.
    fn create(&mut self, name: &str) -> io::Result<()>
        ensures makes { OnOk result (Makes (made self.old) (made self.new) name.now) }
        ensures untouched { OnErr result (made self.new ≡ made self.old) }
        ensures fails { failed self.new ≡ (failed self.old || is_err result) }
        ensures holds { holdings self.new ≡ holdings self.old };

    /// Writes a first part of the bytes to the file that was made, and gives the number of its
    /// bytes.
    ///
    /// # Errors
    ///
    /// What the system says where nothing can be written.
    fn write(&mut self, bytes: &[u8]) -> io::Result<usize>
        ensures inside { IfOk result (λ n. n ≤ length bytes.now) }
        ensures writes { made self.new ≡ written_to (made self.old) bytes.now result }
        ensures fails { failed self.new ≡ (failed self.old || fails_to_write bytes.now result) }
        ensures holds { holdings self.new ≡ holdings self.old };

    /// Asks the file that was made to keep all that it took, and waits until it does.
    ///
    /// # Errors
    ///
    /// What the system says where it does not: that some is lost, or that the file has no way to
    /// keep anything. The latter is no failure.
    fn keep(&mut self) -> io::Result<()>
        ensures asks { made self.new ≡ asked_to_keep (made self.old) result }
        ensures fails { failed self.new ≡ (failed self.old || has_lost result) }
        ensures holds { holdings self.new ≡ holdings self.old };
}
