//! A runtime and a sink that are made up.
ghost use Rattle.std.specs.Prelude.{None, IsErr};

use hunk_words::{Failed, Sink};
use std::alloc::{Allocator, Global};
use std::cell::RefCell;
use std::fs::{Metadata, OpenFile, OpenOptions};
use std::io;
use std::io::{BufRead, Empty, Lines, Read, Seek, SeekFrom, Write};
use std::rt::Files;

/// What a run can read: standard input, and the files that are there, by their names. Where `fails`
/// is set, reading fails once the bytes are given.
#[derive(Clone, Copy)]
pub(super) struct Given<'a> {
    pub input: &'a [u8],
    pub files: &'a [(&'a str, &'a [u8])],
    pub fails: bool,
}

/// A runtime of what is given, which keeps the names of the files that are created, each with a
/// colon and what is written to it.
///
/// A file is read as it was given, whatever is written to its name. The file `full` takes 6 bytes, the
/// file `lost` has lost at the end what it took, and the files `pipe` and `terminal` have nothing to
/// keep. Each name is told to be a regular file, of no number.
#[derive(Drop)]
pub(super) struct Made<'a> {
    pub given: Given<'a>,
    pub created: &'a RefCell<Vec<u8>>,
}

impl<'a> Made<'a> {
    fn tape(&self, rest: &'a [u8]) -> Tape<'a> {
        Tape {
            rest,
            fails: self.given.fails,
            created: self.created,
            room: usize::MAX,
            loss: None,
        }
    }

    /// A file of this name, to which is written.
    fn create(&self, path: &str) -> io::Result<Tape<'a>> {
        keep(self.created, path.as_bytes())?;
        keep(self.created, b":")?;
        let mut tape = self.tape(&[]);
        match path {
            "full" => tape.room = 6,
            "lost" => tape.loss = Some(io::ErrorKind::QuotaExceeded),
            "pipe" => tape.loss = Some(io::ErrorKind::InvalidInput),
            "terminal" => tape.loss = Some(io::ErrorKind::Unsupported),
            _ => {}
        }
        Ok(tape)
    }
}

/// What a `Made` reads from, or writes to.
#[derive(Drop)]
pub(super) struct Tape<'a> {
    rest: &'a [u8],
    fails: bool,
    created: &'a RefCell<Vec<u8>>,
    room: usize,
    // What `sync_all` fails with.
    loss: Option<io::ErrorKind>,
}

/// Puts these bytes after those that were kept.
fn keep(created: &RefCell<Vec<u8>>, bytes: &[u8]) -> io::Result<()> {
    let Ok(mut kept) = created.try_borrow_mut() else {
        return unsupported();
    };
    match kept.extend_from_slice(bytes) {
        Ok(()) => Ok(()),
        Err(_) => unsupported(),
    }
}

fn unsupported<T: Drop>() -> io::Result<T>
    ensures { IsErr result }
{
    Err(io::Error::from(io::ErrorKind::Unsupported))
}

impl Read for Tape<'_> {
    fn read(&mut self, buf: &mut [u8]) -> io::Result<usize> {
        if self.fails && self.rest.is_empty() {
            return unsupported();
        }
        let count = buf.len().min(self.rest.len());
        let (front, rest) = self.rest.split_at(count);
        buf[..count].copy_from_slice(front);
        self.rest = rest;
        Ok(count)
    }
}

impl BufRead for Tape<'_> {
    fn fill_buf(&mut self) -> io::Result<&[u8]> {
        Ok(self.rest)
    }

    fn consume(&mut self, amount: usize) {
        let (_, rest) = self.rest.split_at(amount.min(self.rest.len()));
        self.rest = rest;
    }
}

impl Write for Tape<'_> {
    fn write(&mut self, buf: &[u8]) -> io::Result<usize> {
        let count = buf.len().min(self.room);
        keep(self.created, &buf[..count])?;
        self.room -= count;
        Ok(count)
    }

    fn flush(&mut self) -> io::Result<()> {
        Ok(())
    }
}

impl Seek for Tape<'_> {
    fn seek(&mut self, _to: SeekFrom) -> io::Result<u64> {
        unsupported()
    }
}

impl OpenFile for Tape<'_> {
    fn metadata(&self) -> io::Result<Metadata> {
        unsupported()
    }

    fn set_len(&self, _size: u64) -> io::Result<()> {
        unsupported()
    }

    fn sync_all(&self) -> io::Result<()> {
        match self.loss {
            Some(kind) => Err(io::Error::from(kind)),
            None => Ok(()),
        }
    }

    fn sync_data(&self) -> io::Result<()> {
        unsupported()
    }
}

impl<'a> Files for Made<'a> {
    type File = Tape<'a>;

    type Dir = Empty;

    fn open_file(&self, how: &OpenOptions, path: &str) -> io::Result<Tape<'a>> {
        how.check()?;
        if how.asks_write() {
            return self.create(path);
        }
        for (name, bytes) in self.given.files {
            if *name == path {
                return Ok(self.tape(bytes));
            }
        }
        unsupported()
    }

    fn open_dir(&self, _path: &str) -> io::Result<Empty> {
        unsupported()
    }

    fn metadata(&self, _path: &str) -> io::Result<Metadata> {
        Ok(Metadata::of_file(0))
    }

    fn symlink_metadata(&self, _path: &str) -> io::Result<Metadata> {
        unsupported()
    }

    fn copy(&self, _from: &str, _to: &str) -> io::Result<u64> {
        unsupported()
    }

    fn rename(&self, _from: &str, _to: &str) -> io::Result<()> {
        unsupported()
    }

    fn remove_file(&self, _path: &str) -> io::Result<()> {
        unsupported()
    }

    fn create_dir(&self, _path: &str) -> io::Result<()> {
        unsupported()
    }

    fn remove_dir(&self, _path: &str) -> io::Result<()> {
        unsupported()
    }

    fn remove_dir_all<B: Allocator>(&self, _alloc: B, _path: &str) -> io::Result<()> {
        unsupported()
    }
}

impl<'a> Input for Made<'a> {
    type Reader = Tape<'a>;

    fn read_line<A: Allocator + Clone>(&self, buf: &mut String<A>) -> io::Result<usize> {
        self.reader().read_line(buf)
    }

    fn lines<A: Allocator>(&self, alloc: A) -> Lines<Tape<'a>, A> {
        self.reader().lines(alloc)
    }

    fn reader(&self) -> Tape<'a> {
        self.tape(self.given.input)
    }
}

/// A sink that keeps what it takes, and fails once it has taken `room` bytes.
#[derive(Drop)]
pub(super) struct Kept {
    pub bytes: Vec<u8>,
    room: usize,
    failed: bool,
}

impl Kept {
    pub(super) fn new(alloc: Global, room: usize) -> Kept {
        Kept {
            bytes: Vec::new(alloc),
            room,
            failed: false,
        }
    }
}

impl Sink for Kept {
    ghost outlet = { λ s. record { taken = None; failed = s.failed } };

    fn push(&mut self, bytes: &[u8]) -> Result<usize, Failed> {
        let count = bytes.len().min(self.room);
        let refused = count < bytes.len() && count == 0;
        if refused || self.bytes.extend_from_slice(&bytes[..count]).is_err() {
            self.failed = true;
            return Err(Failed);
        }
        self.room -= count;
        Ok(count)
    }
}
