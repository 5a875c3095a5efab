//! The order that the words of a command line are.
ghost use Rattle.std.specs.Prelude.{◌≡◌, IfOk, IfErr, map, true};
ghost use Rattle.std.specs.String.{string_bytes};
ghost use Rattle.clap.specs.Words.{found_of, kind_of, rows_of, subcommand_of, takes};
ghost use Rattle.clap.specs.Simple.{subcommand_rows_of};
ghost use Rattle.hunk_command_line.specs.Command as spec;
ghost use Rattle.hunk_command_line.specs.Asked.{AnswersOrder, FollowsClap, IsHelp, IsLineOf, IsMemoryOr, RefusesOrder};
ghost use Rattle.hunk_command_line.specs.FaultTexts.{told_fault, unwanted_text};
ghost use Rattle.hunk_command_line.specs.Line.{entered_order, named_order, order_of, relocate_order, rewrite_order};
ghost use Rattle.hunk_command_line.specs.Line.{show_order, validate_order};
ghost use Rattle.hunk_command_line.specs.Line.{words_read};
ghost use Rattle.hunk_command_line.specs.declared.asked.OrderFault.TheVariants.{Memory, Version};

mod command;
mod matches;
mod numbers;

use crate::asked::{Order, OrderFault};
use clap::error::ErrorKind;
use clap::{ArgMatches, Error};
use command::hunkinfo;
use matches::{is_set, name_of, text_of};
use numbers::{base_of, budget_of};
use std::alloc::{AllocError, Global};
use std::convert::AsStr;

/// The segment bytes that `relocate` may hold where the command line does not say.
const DEFAULT_BUDGET: u64 = 16_777_216;

/// What follows the text of clap where a word is no command.
const SHOW_TIP: &str = "To list a file, try 'hunkinfo show FILE'.\n";

/// The words that stand for none.
static STORED: [&str; 5] = ["hunkinfo", "relocate", "--hex", "--base", "00000000"];

/// The fault of a word that is none of those which are wanted, told as clap tells of one.
fn unwanted(alloc: Global, word: &str, place: &str, wanted: &str) -> OrderFault
    ensures { IsMemoryOr (IsLineOf (unwanted_text word.now place.now wanted.now)) result }
{
    let text = format!(in alloc;
        "error: invalid value '{word}' for '{place}': {wanted}\n\n\
        For more information, try '--help'.\n"
    );
    told(text, false)
}

/// The fault that this text tells of: a help that was asked for, or why there is no order. Memory
/// is wanting where there was none for the text, and nowhere else.
fn told(text: Result<String, AllocError>, is_help: bool) -> OrderFault
    ensures { result ≡ told_fault text is_help }
{
    match text {
        Ok(text) if is_help => OrderFault::Help(text),
        Ok(text) => OrderFault::Line(text),
        Err(_) => OrderFault::Memory,
    }
}

/// `show`, by what clap has found.
fn show_order(alloc: Global, found: &ArgMatches<'_>) -> Result<Order, OrderFault>
    ensures { AnswersOrder (show_order (rows_of (found_of found.now))) result }
{
    Ok(Order::Show {
        hex: is_set(found, "hex"),
        wide: is_set(found, "wide"),
        file: name_of(alloc, found, "FILE")?,
    })
}

/// `validate`.
fn validate_order(alloc: Global, found: &ArgMatches<'_>) -> Result<Order, OrderFault>
    ensures { AnswersOrder (validate_order (rows_of (found_of found.now))) result }
{
    Ok(Order::Validate {
        hex: is_set(found, "hex"),
        wide: is_set(found, "wide"),
        file: name_of(alloc, found, "FILE")?,
    })
}

/// `relocate`: its base is mandatory, and its budget has a default.
fn relocate_order(alloc: Global, found: &ArgMatches<'_>) -> Result<Order, OrderFault>
    ensures { AnswersOrder (relocate_order (rows_of (found_of found.now))) result }
{
    let hex = text_of(found, "base").unwrap_or("");
    let Some(base) = base_of(hex) else {
        let wanted = "eight hexadecimal digits are wanted, without 0x, as 00021000";
        return Err(unwanted(alloc, hex, "--base <HEX>", wanted));
    };
    let budget = match text_of(found, "budget") {
        Some(number) => {
            let Some(budget) = budget_of(number) else {
                let wanted = "a number below 2^64 is wanted";
                return Err(unwanted(alloc, number, "--budget <N>", wanted));
            };
            budget
        }
        None => DEFAULT_BUDGET,
    };
    Ok(Order::Relocate {
        hex: is_set(found, "hex"),
        wide: is_set(found, "wide"),
        base,
        budget,
        file: name_of(alloc, found, "FILE")?,
    })
}

/// `rewrite`, with both of its files.
fn rewrite_order(alloc: Global, found: &ArgMatches<'_>) -> Result<Order, OrderFault>
    ensures { AnswersOrder (rewrite_order (rows_of (found_of found.now))) result }
{
    let Some(input) = name_of(alloc, found, "IN")? else {
        return Err(unwanted(alloc, "", "<IN>", "a file is wanted"));
    };
    let Some(output) = name_of(alloc, found, "OUT")? else {
        return Err(unwanted(alloc, "", "<OUT>", "a file is wanted"));
    };
    Ok(Order::Rewrite {
        strip: is_set(found, "strip"),
        wide: is_set(found, "wide"),
        input,
        output,
    })
}

/// What an error of clap means: the help or the version that was asked for, out of memory, or no
/// order. A word that is no command may well be a file, so the text says how one is listed.
fn fault_of(alloc: Global, error: &Error) -> OrderFault
    ensures memory { kind_of error.now ≡ ErrorKind.OutOfMemory → result ≡ Memory }
    ensures asked { IsHelp result → kind_of error.now ≡ ErrorKind.DisplayHelp }
    ensures help { kind_of error.now ≡ ErrorKind.DisplayHelp → IsMemoryOr IsHelp result }
    ensures versioned { result ≡ Version → kind_of error.now ≡ ErrorKind.DisplayVersion }
    ensures version { kind_of error.now ≡ ErrorKind.DisplayVersion → result ≡ Version }
{
    match error.kind() {
        ErrorKind::DisplayHelp => told(format!(in alloc; "{error}"), true),
        ErrorKind::DisplayVersion => OrderFault::Version,
        ErrorKind::OutOfMemory => OrderFault::Memory,
        ErrorKind::InvalidSubcommand => told(format!(in alloc; "{error}{SHOW_TIP}"), false),
        _ => told(format!(in alloc; "{error}"), false),
    }
}

/// What clap finds in the words.
fn matches_in<'w, S: AsStr>(alloc: Global, words: &'w [S]) -> Result<ArgMatches<'w>, OrderFault>
    ensures found { IfOk result (λ found. subcommand_rows_of found
        ≡ subcommand_of spec.hunkinfo (map S.text words.entry.now)) }
    ensures refuses { IfErr result
        (λ fault. takes spec.hunkinfo (map S.text words.entry.now) ≡ true → fault ≡ Memory) }
    ensures clap { FollowsClap (map S.text words.entry.now) result }
{
    match hunkinfo(alloc)?.try_get_matches_from(words) {
        Ok(found) => Ok(found),
        Err(error) => Err(fault_of(alloc, &error)),
    }
}

/// The order of the subcommand with this name, by what clap has found for it.
fn named_order(alloc: Global, name: &str, found: &ArgMatches<'_>) -> Result<Order, OrderFault>
    ensures { AnswersOrder (named_order name.now (rows_of (found_of found.now))) result }
{
    match name {
        "show" => show_order(alloc, found),
        "validate" => validate_order(alloc, found),
        "relocate" => relocate_order(alloc, found),
        "rewrite" => rewrite_order(alloc, found),
        _ => Err(unwanted(alloc, name, "<COMMAND>", "a command is wanted")),
    }
}

/// The order of the subcommand that clap found.
fn chosen_order(alloc: Global, found: &ArgMatches<'_>) -> Result<Order, OrderFault>
    ensures { AnswersOrder (entered_order (subcommand_rows_of found.now)) result }
{
    match found.subcommand() {
        Some((name, found)) => named_order(alloc, name, found),
        None => Err(unwanted(alloc, "", "<COMMAND>", "a command is wanted")),
    }
}

fn order_in<S: AsStr>(alloc: Global, words: &[S]) -> Result<Order, OrderFault>
    ensures order { IfOk result
        (λ order. entered_order (subcommand_of spec.hunkinfo (map S.text words.now)) ≡ Some order) }
    ensures refuses { IfErr result (λ fault. takes spec.hunkinfo (map S.text words.now) ≡ true
        → RefusesOrder (entered_order (subcommand_of spec.hunkinfo (map S.text words.now))) fault) }
    ensures clap { FollowsClap (map S.text words.now) result }
{
    let found = matches_in(alloc, words)?;
    chosen_order(alloc, &found)
}

/// The order that the words are, of which the first is the program's name. Where no word follows
/// it, the words `relocate --hex --base 00000000` are taken.
///
/// # Errors
///
/// `Help` and `Version` where the words ask for them; `Line` where they are none of the program's
/// command lines, or where HEX is not eight hexadecimal digits, or N no decimal number below 2^64;
/// `Memory` where memory is refused.
pub fn order(alloc: Global, words: &[String]) -> Result<Order, OrderFault>
    ensures order { IfOk result (λ order. order_of (map string_bytes words.now) ≡ Some order) }
    ensures refuses { IfErr result
        (λ fault. takes spec.hunkinfo (words_read (map string_bytes words.now)) ≡ true
        → RefusesOrder (order_of (map string_bytes words.now)) fault) }
    ensures clap { FollowsClap (words_read (map string_bytes words.now)) result }
{
    if words.len() < 2 {
        order_in(alloc, STORED.as_slice())
    } else {
        order_in(alloc, words)
    }
}
