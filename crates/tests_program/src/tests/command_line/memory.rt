//! Command lines while memory is refused.
//!
//! Each of the growths by which clap's command is built is the first that is refused in turn. Most later
//! ones fit into what was given back by then: that they are refused, too, is tried on the built program, by
//! `tests/growths/run`.
use crate::tests::asserts::assert_equal_at;
use crate::tests::line::line_of;
use hunk_command_line::{OrderFault, order};
use std::alloc::{AllocError, Global};
use std::process::Abort;
use std::test::Fail;
use test_helpers::{answers_growth_by_growth, memory_ends};

/// What words are.
#[derive(Clone, Copy, Debug, PartialEq, Drop)]
enum Answer {
    Order,
    Line,
    Help,
    Version,
    Memory,
}

fn answer_to(alloc: Global, words: &[String]) -> Answer {
    match order(alloc, words) {
        Ok(_) => Answer::Order,
        Err(OrderFault::Line(_) | OrderFault::NotText) => Answer::Line,
        Err(OrderFault::Help(_)) => Answer::Help,
        Err(OrderFault::Version) => Answer::Version,
        Err(OrderFault::Memory) => Answer::Memory,
    }
}

/// What the words are, or nothing where they are what is wanted.
fn unwanted(alloc: Global, words: &[String], wanted: Answer) -> Option<Answer> {
    let answer = answer_to(alloc, words);
    if answer == wanted { None } else { Some(answer) }
}

/// Words that are orders, with and without a file and the numbers.
const ORDERS: &[(&[&str], Answer)] = &[
    (&["show", "--hex", "a"], Answer::Order),
    (
        &["relocate", "--base", "00021000", "--budget", "4", "a"],
        Answer::Order,
    ),
    (&["rewrite", "--strip", "a", "b"], Answer::Order),
    (&[], Answer::Order),
];

/// Words that are none, by the command line or by a number, and words that ask for help.
const NO_ORDERS: &[(&[&str], Answer)] = &[
    (&["show", "--strip", "a"], Answer::Line),
    (&["relocate", "--base", "1000", "load"], Answer::Line),
    (&["rewrite", "--help"], Answer::Help),
    (&["--version"], Answer::Version),
];

/// Orders whose last word becomes a long one, a name that is copied into the order.
///
/// The command that clap reads the words by takes the most. It is given back before a name is copied, so that the copy
/// is refused only where it takes more than what is left in one piece by then.
const LONG_NAMES: &[(&[&str], Answer)] = &[
    (&["show", "a"], Answer::Order),
    (&["rewrite", "a", "b"], Answer::Order),
];

/// How many bytes are added to it.
const ADDED: usize = 22_000;

/// The command line of these words, with so many bytes after the last.
fn long_line(alloc: Global, words: &[&str], added: usize) -> Result<Vec<String>, AllocError> {
    let mut line = line_of(alloc, words)?;
    if let Some(last) = line.last_mut() {
        for _ in 0..added {
            last.push('a')?;
        }
    }
    Ok(line)
}

/// Sees that memory runs out for the words until there is enough of it, and that they are then what is wanted.
fn expect(
    rt: &impl Abort,
    alloc: Global,
    cases: &[(&[&str], Answer)],
    added: usize,
) -> Result<(), Fail> {
    for (words, wanted) in cases {
        let line = long_line(alloc, words, added)?;
        let answers = answers_growth_by_growth(
            alloc,
            || unwanted(alloc, line.as_slice(), *wanted),
        )?;
        let want = [Some(Answer::Memory), None];
        assert_equal_at(rt, answers.as_slice(), want.as_slice(), words);
    }
    Ok(())
}

#[test]
fn of_orders(rt: HostRuntime) -> Result<(), Fail> {
    if !memory_ends(&rt)? {
        return Ok(());
    }
    expect(&rt, rt.alloc(), ORDERS, 0)
}

#[test]
fn of_no_orders(rt: HostRuntime) -> Result<(), Fail> {
    if !memory_ends(&rt)? {
        return Ok(());
    }
    expect(&rt, rt.alloc(), NO_ORDERS, 0)
}

#[test]
fn of_long_names(rt: HostRuntime) -> Result<(), Fail> {
    if !memory_ends(&rt)? {
        return Ok(());
    }
    expect(&rt, rt.alloc(), LONG_NAMES, ADDED)
}
