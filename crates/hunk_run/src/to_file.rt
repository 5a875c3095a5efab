//! A file that is made at its first byte.
ghost use Rattle.std.specs.Prelude.{◌≡◌, ◌||◌, [], ℕ, Bool, List, None, Option, false};
ghost use Rattle.std.specs.Prelude.{OnOk, is_err, is_some};
ghost use Rattle.hunk_run.specs.OutFile.{file_outlet};
ghost use Rattle.hunk_run.specs.Settling.{has_lost};
ghost use Rattle.hunk_run.specs.Stores.{Holdings, MadeFile, MakesAtMost, MakesFile, MakesWhole};

use crate::store::Store;
use hunk_command_line::FileName;
use hunk_words::{Failed, History, Sink};
use std::io;
use std::marker::{Brand, Model, PhantomData};

/// What there was before a file was made, and its name, for clauses alone.
pub(crate) trait Outset {
    ghost holdings: { Holdings };

    ghost made: { Option MadeFile };

    ghost name: { List ℕ };

    ghost failed: { Bool };
}

impl Outset for Brand {
    ghost holdings = { record { content = λ _. None; input = None; again = λ _. false } };

    ghost made = { None };

    ghost name = { [] };

    ghost failed = { false };
}

/// A sink that makes its file in a store, at its first `push`.
///
/// An error of making or writing, and a write that takes none of a non-empty slice, is `Failed`.
/// What was pushed is settled once the file has answered for it: `sync`.
pub(crate) struct ToFile<'a, S: Store, K: Outset> {
    store: S,
    name: &'a FileName,
    is_made: bool,
    taken: History,
    error: Option<io::Error>,
    outset: PhantomData<K>,
}

impl<'a, S: Store, K: Outset> Model for ToFile<'a, S, K> {
    ghost use Rattle.std.specs.Prelude.{◌≡◌, ◌||◌, is_some};
    ghost use Rattle.hunk_run.specs.OutFile.{IsMade, OutFile};

    ghost Value = { OutFile };

    ghost view = { λ s. record {
      made = S.made s.store;
      taken = s.taken.bytes;
      failed = is_some s.error;
    } };

    ghost invariant = { λ s. (s.name.now ≡ K.name) × (S.holdings s.store ≡ K.holdings)
        × IsMade s.is_made K.made (S.made s.store) K.name s.taken.bytes
        × (S.failed s.store ≡ (K.failed || is_some s.error)) };
}

impl<'a, S: Store, K: Outset> ToFile<'a, S, K> {
    /// A sink to the file of this name, of which nothing is touched yet.
    pub(crate) fn new(store: S, name: &'a FileName) -> ToFile<'a, S, K>
        requires { (name.now ≡ K.name) × (S.holdings store ≡ K.holdings) × (S.made store ≡ K.made)
            × (S.failed store ≡ K.failed) }
        ensures empty { result.taken ≡ [] }
        ensures sound { result.failed ≡ false }
        ensures untouched { result.made ≡ K.made }
    {
        ToFile {
            store,
            name,
            is_made: false,
            taken: History::new(),
            error: None,
            outset: PhantomData,
        }
    }

    /// Makes the file where it is not made yet.
    ///
    /// # Errors
    ///
    /// `Failed` where it can't be made.
    fn make(&mut self) -> Result<(), Failed>
        ensures made { OnOk result (MakesFile K.made self.new.made K.name self.new.taken) }
        ensures failed { self.new.failed ≡ (self.old.failed || is_err result) }
        ensures same { self.new.taken ≡ self.old.taken }
    {
        if self.is_made {
            return Ok(());
        }
        match self.store.create(self.name.as_str()) {
            Ok(()) => {
                self.is_made = true;
                Ok(())
            }
            Err(error) => {
                self.error = Some(error);
                Err(Failed)
            }
        }
    }

    /// Has the file keep all that was pushed, and waits until it does. A pipe or a terminal has
    /// nothing to keep, which is no failure. Where nothing was pushed the file is empty.
    ///
    /// # Errors
    ///
    /// `Failed` where some of what was pushed is lost, as where a full disk or a quota is reported
    /// late.
    pub(crate) fn sync(&mut self) -> Result<(), Failed>
        ensures settled { OnOk result (MakesWhole K.made self.new.made K.name self.new.taken) }
        ensures failed { self.new.failed ≡ (self.old.failed || is_err result) }
        ensures same { self.new.taken ≡ self.old.taken }
    {
        self.make()?;
        match loss_of(self.store.keep()) {
            None => Ok(()),
            Some(error) => {
                self.error = Some(error);
                Err(Failed)
            }
        }
    }

    /// Hands back the store, and the last error.
    pub(crate) fn finish(self) -> (S, Option<io::Error>)
        ensures holdings { S.holdings result.0 ≡ K.holdings }
        ensures made { S.made result.0 ≡ self.entry.made }
        ensures makes { MakesAtMost K.made self.entry.made K.name self.entry.taken }
        ensures error { is_some result.1 ≡ self.entry.failed }
        ensures failed { S.failed result.0 ≡ (K.failed || self.entry.failed) }
    {
        let ToFile {
            store,
            name: _,
            is_made: _,
            taken: _,
            error,
            outset: _,
        } = self;
        (store, error)
    }
}

impl<S: Store, K: Outset> Sink for ToFile<'_, S, K> {
    ghost outlet = { λ s. file_outlet s };

    fn push(&mut self, bytes: &[u8]) -> Result<usize, Failed> {
        self.make()?;
        match self.store.write(bytes) {
            Ok(0) if !bytes.is_empty() => {
                self.error = Some(io::Error::from(io::ErrorKind::WriteZero));
                Err(Failed)
            }
            Ok(count) => {
                self.taken = self.taken.and(&bytes[..count]);
                Ok(count)
            }
            Err(error) => {
                self.error = Some(error);
                Err(Failed)
            }
        }
    }
}

/// What is amiss where a file that answers so does not keep all that was written, as far as it
/// keeps anything.
pub(crate) fn loss_of(answer: io::Result<()>) -> Option<io::Error>
    ensures { is_some result ≡ has_lost answer }
{
    match answer {
        Ok(()) => None,
        Err(error) => match error.kind() {
            io::ErrorKind::InvalidInput | io::ErrorKind::Unsupported => None,
            _ => Some(error),
        },
    }
}
