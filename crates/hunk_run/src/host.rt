//! The files of the system.
ghost use Rattle.std.specs.Prelude.{◌≡◌, ◌≤◌, ◌||◌, IfOk, IsTrue, None, OnErr, OnOk, false, is_some};
ghost use Rattle.std.specs.Prelude.{is_err, length};
ghost use Rattle.std.specs.Fs.{file_type, IsFile};
ghost use Rattle.hunk_run.specs.Stores.{Makes, written_to};

use crate::store::Store;
use crate::to_file::loss_of;
use hunk_words::{FromRead, History};
use std::fs::{Metadata, OpenFile};
use std::io::Write;
use std::marker::Model;
use std::os::unix::fs::MetadataExt;
use std::rt::Files;
use std::{fs, io};

/// The names by which the system tells of the files that standard output and standard error are.
const OUTPUT: &str = "/dev/stdout";

const ERRORS: &str = "/dev/stderr";

/// The files of the system and its standard input, of whose bytes nothing is known.
#[derive(Drop)]
pub struct Host<'a, T: Files> {
    rt: &'a T,
    file: Option<T::File>,
    name: History,
    taken: History,
    answer: Option<io::Result<()>>,
    failed: bool,
}

impl<'a, T: Files> Model for Host<'a, T> {
    ghost use Rattle.hunk_run.specs.Hosts.{HasTaken, HostValue, made_of};

    ghost Value = { HostValue };

    ghost view = { λ s. record {
      made = made_of s.file s.name.bytes s.taken.bytes s.answer;
      failed = s.failed;
    } };

    ghost invariant = { λ s. HasTaken (λ f. T.File.contents f) s.file s.taken.bytes };
}

impl<'a, T: Files> Host<'a, T> {
    /// The files of this runtime, of which none is made, and none has failed.
    pub fn new(rt: &'a T) -> Host<'a, T>
        ensures { result ≡ record { made = None; failed = false } }
    {
        Host {
            rt,
            file: None,
            name: History::new(),
            taken: History::new(),
            answer: None,
            failed: false,
        }
    }

    /// Opens the file of this name, and keeps in mind whether that has failed.
    fn open_file(&mut self, name: &str) -> io::Result<T::File>
        ensures failed { self.new.failed ≡ (self.old.failed || is_err result) }
        ensures made { self.new.made ≡ self.old.made }
    {
        let file = fs::open(self.rt, name);
        self.note(file.is_err());
        file
    }

    /// Makes the file of this name, where none is made yet.
    fn make(&mut self, name: &str) -> io::Result<()>
        ensures makes { OnOk result (Makes self.old.made self.new.made name.now) }
        ensures untouched { OnErr result (self.new.made ≡ self.old.made) }
        ensures failed { self.new.failed ≡ self.old.failed }
    {
        if self.file.is_some() {
            return Err(io::Error::from(io::ErrorKind::AlreadyExists));
        }
        self.file = Some(create(self.rt, name)?);
        self.name = History::new().and(name.as_bytes());
        self.taken = History::new();
        self.answer = None;
        Ok(())
    }

    /// Writes a first part of the bytes to the file that was made.
    fn append(&mut self, bytes: &[u8]) -> io::Result<usize>
        ensures inside { IfOk result (λ n. n ≤ length bytes.now) }
        ensures writes { self.new.made ≡ written_to self.old.made bytes.now result }
        ensures failed { self.new.failed ≡ self.old.failed }
    {
        let Some(file) = &mut self.file else {
            return Err(io::Error::from(io::ErrorKind::NotFound));
        };
        let count = file.write(bytes)?;
        self.taken = self.taken.and(&bytes[..count]);
        self.answer = None;
        Ok(count)
    }

    /// Keeps in mind whether a file has failed.
    fn note(&mut self, fails: bool)
        ensures failed { self.new.failed ≡ (self.old.failed || fails) }
        ensures made { self.new.made ≡ self.old.made }
    {
        self.failed = self.failed || fails;
    }
}

impl<T: Files + Input> Store for Host<'_, T> {
    type File = T::File;

    type Input = T::Reader;

    ghost use Rattle.std.specs.Prelude.{None, true};

    ghost holdings = { λ _. record { content = λ _. None; input = None; again = λ _. true } };

    ghost made = { λ s. s.made };

    ghost opened = { λ _. true };

    ghost failed = { λ s. s.failed };

    fn open(&mut self, name: &str) -> io::Result<T::File> {
        self.open_file(name)
    }

    fn is_regular(&self, name: &str) -> bool {
        match fs::metadata(self.rt, name) {
            Ok(file) => file.is_file(),
            Err(_) => false,
        }
    }

    fn input(&mut self) -> T::Reader {
        self.rt.reader()
    }

    fn close(&mut self, file: FromRead<T::File>) -> Option<io::Error>
        ensures tells { result ≡ file.error }
        ensures fails { self.new.failed ≡ (self.old.failed || is_some file.error) }
        ensures makes { self.new.made ≡ self.old.made }
    {
        let error = file.error();
        self.note(error.is_some());
        error
    }

    fn close_input(&mut self, input: FromRead<T::Reader>) -> Option<io::Error>
        ensures tells { result ≡ input.error }
        ensures fails { self.new.failed ≡ (self.old.failed || is_some input.error) }
        ensures makes { self.new.made ≡ self.old.made }
    {
        let error = input.error();
        self.note(error.is_some());
        error
    }

    fn create(&mut self, name: &str) -> io::Result<()> {
        let made = self.make(name);
        self.note(made.is_err());
        made
    }

    fn write(&mut self, bytes: &[u8]) -> io::Result<usize> {
        let written = self.append(bytes);
        self.note(match written {
            Ok(count) => count == 0 && !bytes.is_empty(),
            Err(_) => true,
        });
        written
    }

    fn keep(&mut self) -> io::Result<()> {
        let Some(file) = &self.file else {
            self.note(true);
            return Err(io::Error::from(io::ErrorKind::NotFound));
        };
        let answer = file.sync_all();
        self.answer = Some(answer);
        self.note(loss_of(answer).is_some());
        answer
    }
}

/// Creates the file of this name, or empties it, but for those that standard output and standard
/// error are: what is said there would take the place of what is written to it.
fn create<T: Files>(rt: &T, name: &str) -> io::Result<T::File> {
    let taken_by = if is_stream(rt, name, OUTPUT) {
        "standard output goes there"
    } else if is_stream(rt, name, ERRORS) {
        "standard error goes there"
    } else {
        return fs::create(rt, name);
    };
    Err(io::Error::new(io::ErrorKind::PermissionDenied, taken_by))
}

/// Whether the file of this name is the regular file that this stream is. Where the system does not
/// tell of both, it is not.
fn is_stream<T: Files>(rt: &T, name: &str, stream: &str) -> bool {
    match (fs::metadata(rt, name), fs::metadata(rt, stream)) {
        (Ok(file), Ok(taken)) => is_one_file(&file, &taken),
        _ => false,
    }
}

/// Whether these are of one regular file, which has a number above 0 on its device.
fn is_one_file(one: &Metadata, other: &Metadata) -> bool
    ensures { IsTrue result → IsFile (file_type one.now) }
{
    one.is_file() && one.ino() > 0 && one.ino() == other.ino() && one.dev() == other.dev()
}
