//! The program hunkinfo: lists, checks, relocates and rewrites AmigaDOS hunk files.
#![tactic(auto)]

use hunk_command_line::OrderFault;
use hunk_run::{Ended, Host};
use hunk_words::{FromWrite, LongWriter};
use std::fs::File;
use std::io::IsTerminal;
use std::os::fd::AsRawFd;
use std::process::ExitCode;
use std::{env, fs, io};

/// Said to a person who starts the program alone, since it reads a text then.
const WAITING: &str = "hunkinfo: reading hexadecimal text from the terminal, up to its end; \
                       hunkinfo --help tells more\n";

/// The names by which the system tells of the standard streams, whose numbers are 0, 1 and 2.
const STREAMS: [&str; 3] = ["/dev/stdin", "/dev/stdout", "/dev/stderr"];

/// Said where one of them is closed, and its number stays free.
const CLOSED: &str =
    "hunkinfo: a standard stream is closed, and nothing can be opened in its place\n";

/// The exit status where reading or writing failed.
const FAILED: u8 = 3;

/// Something that takes the lowest free number, or `None` where that is of no standard stream.
///
/// It is the root folder, open to be read: all that is read from it or written to it fails, as it
/// did while the stream was closed. Where a user may not read that folder the null device serves,
/// from which no byte is read.
fn stand_in(rt: &HostRuntime) -> io::Result<Option<File>> {
    let file = match fs::open(rt, "/") {
        Ok(folder) => folder,
        Err(_) => fs::open(rt, "/dev/null")?,
    };
    Ok(if file.as_raw_fd() < 3 {
        Some(file)
    } else {
        None
    })
}

/// Takes the numbers of the standard streams that are closed.
///
/// The system gives each file that is opened the lowest number that is free. So OUT would be
/// standard output where that is closed, and have what is printed behind what is written to it.
fn stand_ins(rt: &HostRuntime) -> io::Result<[Option<File>; 3]> {
    Ok([stand_in(rt)?, stand_in(rt)?, stand_in(rt)?])
}

/// Whether the system tells of all standard streams. It does not of one that is closed.
fn are_open(rt: &HostRuntime) -> bool {
    STREAMS.iter().all(|name| fs::metadata(rt, *name).is_ok())
}

/// The words of the command line, which have to be text.
fn words_of(rt: &HostRuntime) -> Result<Vec<String>, OrderFault> {
    match env::args(rt) {
        Ok(words) => Ok(words.collect(rt.alloc())?),
        Err(error) => match error.kind() {
            io::ErrorKind::OutOfMemory => Err(OrderFault::Memory),
            _ => Err(OrderFault::NotText),
        },
    }
}

/// Whether the program was started alone, and what it reads is what a person types.
fn waits_for_typing(rt: &HostRuntime, words: &[String]) -> bool {
    words.len() <= 1 && rt.stdin().is_terminal()
}

fn main(rt: HostRuntime) -> ExitCode {
    // They are kept to the end. Where none can be had, no stream may be closed. On Windows files
    // have other numbers, and none is needed.
    let stand_ins = stand_ins(&rt);
    if stand_ins.is_err() && !are_open(&rt) {
        let _ = eprint!(rt; "{CLOSED}");
        return ExitCode::from(FAILED);
    }
    let mut out = LongWriter::new(FromWrite::new(io::writer(&rt)));
    let Ended {
        status,
        spelled,
        note,
    } = match words_of(&rt) {
        Ok(words) => {
            // A standard error that fails changes nothing.
            if waits_for_typing(&rt, words.as_slice()) {
                let _ = eprint!(rt; "{WAITING}");
            }
            let store = Host::new(&rt);
            let (ended, _store) = hunk_run::run(store, rt.alloc(), words.as_slice(), &mut out);
            ended
        }
        Err(fault) => hunk_run::refuse(fault, &mut out),
    };
    if let Some(spelled) = spelled {
        let _ = eprint!(rt; "{spelled}");
    }
    let Some(note) = note else {
        return ExitCode::from(status);
    };
    let note = note.with_cause(out.into_inner().error());
    let _ = eprint!(rt; "{note}");
    ExitCode::from(status)
}
