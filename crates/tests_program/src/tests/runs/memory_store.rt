//! Files in memory, as a store of which all is known.
ghost use Rattle.std.specs.Prelude.{◌≡◌, ◌≤◌, ◌||◌, ◌++◌, IfOk, None, Ok, OnErr, false, is_some};
ghost use Rattle.std.specs.Prelude.{length, take};
ghost use Rattle.hunk_run.specs.Stores.{fails_to_write};

use hunk_run::Store;
use hunk_words::FromRead;
use std::alloc::Global;
use std::io;
use std::marker::Model;

/// A file that is there.
#[derive(Clone, Copy)]
pub(super) struct Held<'a> {
    pub name: &'a str,
    pub bytes: &'a [u8],
}

/// The file that is made. Contracts see its name, what it has taken and its answer.
#[derive(Drop)]
pub(super) struct Taking {
    pub name: String,
    pub taken: Vec<u8>,
    pub answer: Option<io::Result<()>>,
}

impl Model for Taking {
    ghost use Rattle.std.specs.String.{string_bytes};
    ghost use Rattle.hunk_run.specs.Stores.{MadeFile};

    ghost Value = { MadeFile };

    ghost view = { λ s. record {
      name = string_bytes s.name;
      taken = s.taken.items;
      answer = s.answer;
    } };
}

impl Taking {
    /// Takes at most 7 of the bytes.
    fn take(&mut self, bytes: &[u8]) -> io::Result<usize>
        ensures inside { IfOk result (λ n. n ≤ length bytes.now) }
        ensures some { IfOk result (λ n. fails_to_write bytes.now (Ok n) ≡ false) }
        ensures takes { IfOk result (λ n. self.new ≡ record {
          name = self.old.name;
          taken = self.old.taken ++ take n bytes.now;
          answer = None;
        }) }
        ensures fails { OnErr result (self.new ≡ self.old) }
    {
        let count = bytes.len().min(7);
        if self.taken.extend_from_slice(&bytes[..count]).is_err() {
            return Err(io::Error::from(io::ErrorKind::OutOfMemory));
        }
        self.answer = None;
        Ok(count)
    }
}

/// Two files and standard input, and a file that is made. It tells whether the two are regular:
/// where they are not, only what is opened first has its bytes, as a pipe does.
#[derive(Drop)]
pub(super) struct MemoryStore<'a> {
    pub alloc: Global,
    pub are_regular: bool,
    pub is_opened: bool,
    pub has_failed: bool,
    pub first: Held<'a>,
    pub second: Held<'a>,
    pub input: &'a [u8],
    pub made: Option<Taking>,
}

impl<'a> Store for MemoryStore<'a> {
    type File = &'a [u8];

    type Input = &'a [u8];

    ghost use Rattle.std.specs.Prelude.{None, Some, if◌then◌else◌};
    ghost use Rattle.std.specs.Str.{bytes_eq};

    ghost holdings = { λ s. record {
      content = λ name. if bytes_eq s.first.name.now name then Some s.first.bytes.now
          else (if bytes_eq s.second.name.now name then Some s.second.bytes.now else None);
      input = Some s.input.now;
      again = λ name. s.are_regular;
    } };

    ghost made = { λ s. s.made };

    ghost opened = { λ s. s.is_opened };

    ghost failed = { λ s. s.has_failed };

    fn open(&mut self, name: &str) -> io::Result<&'a [u8]> {
        let is_drained = self.is_opened && !self.are_regular;
        self.is_opened = true;
        if self.first.name == name {
            return Ok(if is_drained { &[] } else { self.first.bytes });
        }
        if self.second.name == name {
            return Ok(if is_drained { &[] } else { self.second.bytes });
        }
        self.has_failed = true;
        Err(io::Error::from(io::ErrorKind::NotFound))
    }

    fn is_regular(&self, _name: &str) -> bool {
        self.are_regular
    }

    fn input(&mut self) -> &'a [u8] {
        let is_drained = self.is_opened;
        self.is_opened = true;
        if is_drained { &[] } else { self.input }
    }

    fn close(&mut self, file: FromRead<&'a [u8]>) -> Option<io::Error>
        ensures tells { result ≡ file.entry.error }
        ensures fails { self.new ≡ record {
          alloc = self.old.alloc;
          are_regular = self.old.are_regular;
          is_opened = self.old.is_opened;
          has_failed = (self.old.has_failed || is_some file.entry.error);
          first = self.old.first;
          second = self.old.second;
          input = self.old.input;
          made = self.old.made;
        } }
    {
        let error = file.error();
        self.has_failed = self.has_failed || error.is_some();
        error
    }

    fn close_input(&mut self, input: FromRead<&'a [u8]>) -> Option<io::Error>
        ensures tells { result ≡ input.entry.error }
        ensures fails { self.new ≡ record {
          alloc = self.old.alloc;
          are_regular = self.old.are_regular;
          is_opened = self.old.is_opened;
          has_failed = (self.old.has_failed || is_some input.entry.error);
          first = self.old.first;
          second = self.old.second;
          input = self.old.input;
          made = self.old.made;
        } }
    {
        let error = input.error();
        self.has_failed = self.has_failed || error.is_some();
        error
    }

    fn create(&mut self, name: &str) -> io::Result<()> {
        if self.made.is_some() {
            self.has_failed = true;
            return Err(io::Error::from(io::ErrorKind::AlreadyExists));
        }
        let Ok(name) = String::from_str(self.alloc, name) else {
            self.has_failed = true;
            return Err(io::Error::from(io::ErrorKind::OutOfMemory));
        };
        self.made = Some(Taking {
            name,
            taken: Vec::new(self.alloc),
            answer: None,
        });
        Ok(())
    }

    fn write(&mut self, bytes: &[u8]) -> io::Result<usize> {
        let Some(file) = &mut self.made else {
            self.has_failed = true;
            return Err(io::Error::from(io::ErrorKind::NotFound));
        };
        let written = file.take(bytes);
        self.has_failed = self.has_failed || written.is_err();
        written
    }

    fn keep(&mut self) -> io::Result<()> {
        let Some(file) = &mut self.made else {
            self.has_failed = true;
            return Err(io::Error::from(io::ErrorKind::NotFound));
        };
        file.answer = Some(Ok(()));
        Ok(())
    }
}
