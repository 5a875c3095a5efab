//! In which pages a text goes out.
ghost use Rattle.std.specs.Prelude.{None, false, codes};

use crate::tests::asserts::assert_equal;
use hunk_words::{Failed, LongWriter, PageLine, Printer, Sink};
use std::test::Fail;

/// Takes all, and counts the pushes and the bytes of the last one.
#[derive(Debug, PartialEq, Drop)]
struct Pushed {
    times: usize,
    last: usize,
}

impl Sink for Pushed {
    ghost outlet = { λ _. record { taken = None; failed = false } };

    fn push(&mut self, bytes: &[u8]) -> Result<usize, Failed> {
        self.times = self.times.wrapping_add(1);
        self.last = bytes.len();
        Ok(bytes.len())
    }
}

/// How a text of this many bytes goes out that is printed byte by byte.
fn pushes_of(count: usize) -> Pushed {
    let mut out = LongWriter::new(Pushed { times: 0, last: 0 });
    let mut page = Printer::new(&mut out);
    for _ in 0..count {
        page.print(b"x");
    }
    let _answer = page.flush();
    let _out = page.into_inner();
    out.into_inner()
}

/// Numbers of bytes, and in how many pushes they go out: each but the last is a page of 81,920 bytes.
const PAGES: &[(usize, usize, usize)] = &[
    (1, 1, 1),
    (81_920, 1, 81_920),
    (81_921, 2, 1),
    (245_760, 3, 81_920),
    (300_000, 4, 54_240),
];

#[test]
fn goes_out_by_pages(rt: HostRuntime) -> Result<(), Fail> {
    for (count, times, last) in PAGES {
        let (times, last) = (*times, *last);
        assert_equal(&rt, pushes_of(*count), Pushed { times, last });
    }
    Ok(())
}

/// A line of ten bytes.
#[derive(Drop)]
struct Ten;

impl PageLine for Ten {
    ghost text = { λ _. codes "123456789\n" };

    fn put(&self, room: &mut [u8]) -> usize {
        room[..10].copy_from_slice(b"123456789\n");
        10
    }
}

/// How a text of this many lines goes out.
fn pushes_of_lines(count: usize) -> Pushed {
    let mut out = LongWriter::new(Pushed { times: 0, last: 0 });
    let mut page = Printer::new(&mut out);
    for _ in 0..count {
        page.print_line(&Ten);
    }
    let _answer = page.flush();
    let _out = page.into_inner();
    out.into_inner()
}

/// Numbers of lines, and in how many pushes they go out: a page does where fewer than 96 bytes of it are left.
const LINES: &[(usize, usize, usize)] = &[
    (1, 1, 10),
    (8_183, 1, 81_830),
    (8_184, 2, 10),
    (16_367, 3, 10),
];

#[test]
fn lines_go_out_by_pages(rt: HostRuntime) -> Result<(), Fail> {
    for (count, times, last) in LINES {
        let (times, last) = (*times, *last);
        assert_equal(&rt, pushes_of_lines(*count), Pushed { times, last });
    }
    Ok(())
}
