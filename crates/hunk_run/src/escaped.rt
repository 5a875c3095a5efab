//! Text of the command line, shown so that nothing of it acts on a terminal.
ghost use Rattle.std.specs.Prelude.{◌≡◌, Some, flat_map, chars, true, encode_utf8};
ghost use Rattle.std.specs.Fmt.{WritesOnOk};
ghost use Rattle.hunk_run.specs.Escapes.{escape, escaped, escaped_lines, is_escaped, shown};

use std::fmt;

/// A text on one line, as a file's name. It is displayed with `\x` and two hexadecimal digits for
/// each byte of a control character or a backslash, as the command `hunk` does.
#[derive(Clone, Copy)]
pub(crate) struct Escaped<'a> {
    pub text: &'a str,
}

/// A text that has line ends of its own, which stay.
#[derive(Clone, Copy)]
pub(crate) struct EscapedLines<'a> {
    pub text: &'a str,
}

impl fmt::Display for Escaped<'_> {
    ghost output = { λ it. Some (escaped it.text.now) };

    fn fmt<W: fmt::Write>(&self, f: &mut fmt::Formatter<W>) -> fmt::Result {
        write_text(f, self.text, false)
    }
}

impl fmt::Display for EscapedLines<'_> {
    ghost output = { λ it. Some (escaped_lines it.text.now) };

    fn fmt<W: fmt::Write>(&self, f: &mut fmt::Formatter<W>) -> fmt::Result {
        write_text(f, self.text, true)
    }
}

/// Writes the text, character by character.
fn write_text<W: fmt::Write>(f: &mut fmt::Formatter<W>, text: &str, lines: bool) -> fmt::Result
    ensures { WritesOnOk W.write_str_gives f.old result
        (flat_map (shown lines) (chars text.now)) f.new }
{
    let mut rest = text.chars();
    'text: while let Some(c) = rest.next() {
        write_shown(f, c, lines)?;
    }
    Ok(())
}

#[tactic(auto, unfolding(crate::specs::Escapes::shown))]
fn write_shown<W: fmt::Write>(f: &mut fmt::Formatter<W>, c: char, lines: bool) -> fmt::Result
    ensures { WritesOnOk W.write_str_gives f.old result (shown lines c) f.new }
{
    if is_escaped(c, lines) {
        write_escapes(f, c)
    } else {
        f.write_char(c)
    }
}

/// Whether the character does not stand for itself.
fn is_escaped(c: char, lines: bool) -> bool
    ensures { result ≡ is_escaped lines c }
{
    match c {
        '\n' => !lines,
        '\0'..='\x1F' | '\x7F'..='\u{9F}' | '\\' => true,
        _ => false,
    }
}

/// Writes the bytes that the character has in UTF-8 as escapes.
fn write_escapes<W: fmt::Write>(f: &mut fmt::Formatter<W>, c: char) -> fmt::Result
    ensures { WritesOnOk W.write_str_gives f.old result (flat_map escape (encode_utf8 c)) f.new }
{
    let mut room = [0; 4];
    let mut bytes = c.encode_utf8(&mut room).bytes();
    'bytes: while let Some(byte) = bytes.next() {
        write_escape(f, byte)?;
    }
    Ok(())
}

fn write_escape<W: fmt::Write>(f: &mut fmt::Formatter<W>, byte: u8) -> fmt::Result
    ensures { WritesOnOk W.write_str_gives f.old result (escape byte) f.new }
{
    write!(f, "\\x{byte:02x}")
}
