//! The command that clap reads the words by, with its help.
ghost use Rattle.std.specs.Prelude.{◌≡◌, IfOk, codes, false};
ghost use Rattle.clap.specs.Words.{App, Rule, app_of, new_app, new_rule, with_rule, with_subcommand};
ghost use Rattle.clap.specs.declared.builder.command.Command.TheViews.{out-Command as fields_of};
ghost use Rattle.hunk_command_line.specs.Command as spec;

use crate::asked::VERSION_LINE;
use clap::{Arg, ArgAction, Command};
use std::alloc::{AllocError, Global};

const AFTER_HELP: &str = "\
Without a command, standard input is read as hexadecimal text and relocated
to the address 00000000.

Examples:
  hunkinfo show prog
  hunkinfo validate part.o
  hunkinfo relocate --base 00021000 --budget 65536 prog
  hunkinfo rewrite --strip prog prog.stripped
  hunkinfo show --wide prog
  hunkinfo COMMAND --help

With --wide a file is read as its plain spelling: blocks of relocations with
16-bit words count as RELOC32, and an END that is left out before the next
hunk, or at the end, is put in. Standard error says how much was spelled so.

The command hunk, of the Python package, reads many files, warns of programs
that may crash, and converts programs to ELF and other formats.

Limits:
  The input: fewer than 67108864 bytes (64 MiB); for relocate, and as text of
  --hex, at most 67108864.
  File names are UTF-8; `hunkinfo show < FILE` reads a file of any name.
  relocate holds the bytes that the hunks declare, and 12 for each hunk, and
  validate of a load file those 12. The other commands, and validate of an
  object file, hold the input, and nothing that grows with the number of its
  parts. With --hex the bytes that the text spells are held in addition. With
  --wide each command holds the input, and its plain spelling where that is
  another; both have fewer than 67108864 bytes.

Exit status:
  0  done
  1  the input was refused, or validate found something
  2  the command line was refused
  3  reading or writing failed
  4  out of memory
Where it is not 0, standard error says what is wrong, and in which file. What
validate found is in what it prints.";

const AFTER_SHOW: &str = "\
Examples:
  hunkinfo show prog
  hunkinfo show < prog
  hunkinfo show --wide prog
  xxd -p prog | hunkinfo show --hex";

const AFTER_VALIDATE: &str = "\
The exit status is 1 where the file was refused, or something was found.

Example:
  hunkinfo validate part.o";

const AFTER_RELOCATE: &str = "\
The memory of all hunks is allocated at once, when the header has been read: a
small file may take the whole budget.

Of standard input no byte after the file is read, but with --hex or --wide all.

Example, at the address 0x00021000 and in at most 65536 bytes:
  hunkinfo relocate --base 00021000 --budget 65536 prog";

const AFTER_REWRITE: &str = "\
OUT is overwritten, and left incomplete if writing fails. It must not be the
file that standard output goes to. To replace a file, write a new one, and
rename it if that succeeded:
  hunkinfo rewrite IN IN.new && mv IN.new IN
With --wide the plain spelling is written.

Example, without names, symbols and debug data:
  hunkinfo rewrite --strip prog prog.stripped";

/// `--name`.
fn flag<'a>(alloc: Global, name: &'a str, help: &'a str) -> Arg<'a>
    ensures { spec.IsArgument (spec.flag name.entry.now) result }
{
    Arg::new(alloc, name)
        .long(name)
        .action(ArgAction::SetTrue)
        .help(help)
}

/// `--name VALUE`.
fn option<'a>(alloc: Global, name: &'a str, value: &'a str, help: &'a str) -> Arg<'a>
    ensures { spec.IsArgument (spec.option name.entry.now) result }
{
    Arg::new(alloc, name)
        .long(name)
        .value_name(value)
        .help(help)
}

/// A word at its place.
fn positional<'a>(alloc: Global, name: &'a str, help: &'a str) -> Arg<'a>
    ensures { spec.IsArgument (new_rule name.entry.now) result }
{
    Arg::new(alloc, name).help(help)
}

/// The argument, which has to be there.
fn mandatory<'a>(arg: Arg<'a>) -> Arg<'a>
    ensures { (rule : Rule) → spec.IsArgument rule arg.entry
        → spec.IsArgument (spec.mandatory rule) result }
{
    arg.required(true)
}

fn hex_flag<'a>(alloc: Global) -> Arg<'a>
    ensures { spec.IsArgument (spec.flag (codes "hex")) result }
{
    let help = "The input is hexadecimal text; spaces, tabs and line ends in it are ignored";
    flag(alloc, "hex", help)
}

fn wide_flag<'a>(alloc: Global) -> Arg<'a>
    ensures { spec.IsArgument (spec.flag (codes "wide")) result }
{
    let help = "Read short relocations, and hunks whose END is left out, as their plain spelling";
    flag(alloc, "wide", help)
}

fn file_positional<'a>(alloc: Global) -> Arg<'a>
    ensures { spec.IsArgument (new_rule (codes "FILE")) result }
{
    let help = "The file to read; without it, standard input is read";
    positional(alloc, "FILE", help)
}

/// A command that does not have its arguments yet, with what its help says before and after them.
fn command<'a>(alloc: Global, name: &'a str, about: &'a str, after: &'a str) -> Command<'a>
    ensures { spec.IsCommand (new_app name.entry.now) result }
{
    Command::new(alloc, name).about(about).after_help(after)
}

/// The command with an argument more, where there was memory for both.
///
/// `drop` is quicker to prove than the end of the scope, which drops each field by itself.
fn with_argument<'a>(
    command: Result<Command<'a>, AllocError>,
    arg: Arg<'a>,
) -> Result<Command<'a>, AllocError>
    ensures { (app : App) (rule : Rule) → IfOk command.entry (spec.IsCommand app)
        → spec.IsArgument rule arg.entry → IfOk result (spec.IsCommand (with_rule app rule)) }
{
    match command {
        Ok(command) => command.arg(arg),
        Err(AllocError) => {
            drop(arg);
            Err(AllocError)
        }
    }
}

/// A command whose input may be text, or in a wide spelling: NAME [--hex] [--wide].
fn reading_command<'a>(
    alloc: Global,
    name: &'a str,
    about: &'a str,
    after: &'a str,
) -> Result<Command<'a>, AllocError>
    ensures { IfOk result (spec.IsCommand (spec.reading_command name.entry.now)) }
{
    let command = command(alloc, name, about, after);
    let command = with_argument(Ok(command), hex_flag(alloc));
    with_argument(command, wide_flag(alloc))
}

/// A command that has no options of its own: NAME [--hex] [--wide] [FILE].
fn plain_command<'a>(
    alloc: Global,
    name: &'a str,
    about: &'a str,
    after: &'a str,
) -> Result<Command<'a>, AllocError>
    ensures { IfOk result (spec.IsCommand (spec.plain_command name.entry.now)) }
{
    let command = reading_command(alloc, name, about, after);
    with_argument(command, file_positional(alloc))
}

fn relocate<'a>(alloc: Global) -> Result<Command<'a>, AllocError>
    ensures { IfOk result (spec.IsCommand spec.relocate_command) }
{
    let about = "Loads a load file at an address, and prints the bytes of its hunks";
    let base = "The address of the first hunk: eight hexadecimal digits without 0x, as 00021000";
    let budget = "The most bytes that the hunks may have together, in decimal [default: 16777216]";
    let command = reading_command(alloc, "relocate", about, AFTER_RELOCATE);
    let command = with_argument(command, mandatory(option(alloc, "base", "HEX", base)));
    let command = with_argument(command, option(alloc, "budget", "N", budget));
    with_argument(command, file_positional(alloc))
}

/// `rewrite`, without its files yet.
fn writing_command<'a>(alloc: Global) -> Result<Command<'a>, AllocError>
    ensures { IfOk result (spec.IsCommand spec.writing_command) }
{
    let about = "Reads a load file or an object file, and writes it again";
    let strip = "Leave out names, symbols, debug data and advisory blocks";
    let command = command(alloc, "rewrite", about, AFTER_REWRITE);
    let command = with_argument(Ok(command), flag(alloc, "strip", strip));
    with_argument(command, wide_flag(alloc))
}

fn rewrite<'a>(alloc: Global) -> Result<Command<'a>, AllocError>
    ensures { IfOk result (spec.IsCommand spec.rewrite_command) }
{
    let input = "The file to read";
    let output = "The file to write; it is not touched where IN is refused";
    let command = writing_command(alloc);
    let command = with_argument(command, mandatory(positional(alloc, "IN", input)));
    with_argument(command, mandatory(positional(alloc, "OUT", output)))
}

/// The program, without its subcommands yet. That it has a version makes `--version` a flag; what
/// clap would print of it is not taken.
fn program<'a>(alloc: Global) -> Command<'a>
    ensures { app_of result ≡ spec.program }
{
    Command::new(alloc, "hunkinfo")
        .about("Lists, checks, relocates and rewrites AmigaDOS hunk files")
        .after_help(AFTER_HELP)
        .version(VERSION_LINE)
        .subcommand_required(true)
}

/// The program with a subcommand more, where there was memory for both.
fn extended<'a>(
    program: Result<Command<'a>, AllocError>,
    subcommand: Result<Command<'a>, AllocError>,
) -> Result<Command<'a>, AllocError>
    requires { IfOk subcommand (λ command. (fields_of command).has_globals ≡ false) }
    ensures { (app more : App) → IfOk program.entry (λ command. app_of command ≡ app)
        → IfOk subcommand.entry (spec.IsCommand more)
        → IfOk result (λ grown. app_of grown ≡ with_subcommand app more.top) }
{
    let subcommand = match subcommand {
        Ok(subcommand) => subcommand,
        Err(AllocError) => {
            drop(program);
            return Err(AllocError);
        }
    };
    match program {
        Ok(program) => program.subcommand(subcommand),
        Err(AllocError) => {
            drop(subcommand);
            Err(AllocError)
        }
    }
}

/// The whole command line: one subcommand, with its flags, options and file names.
pub(super) fn hunkinfo<'a>(alloc: Global) -> Result<Command<'a>, AllocError>
    ensures { IfOk result (λ command. app_of command ≡ spec.hunkinfo) }
{
    let shows = "Lists the hunks and blocks of a load file or an object file";
    let validates = "Checks a file, and lists relocations and references that are out of range";
    let show = plain_command(alloc, "show", shows, AFTER_SHOW);
    let program = extended(Ok(program(alloc)), show);
    let validate = plain_command(alloc, "validate", validates, AFTER_VALIDATE);
    let program = extended(program, validate);
    let program = extended(program, relocate(alloc));
    extended(program, rewrite(alloc))
}
