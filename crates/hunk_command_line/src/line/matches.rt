//! What clap found for an argument.
ghost use Rattle.std.specs.Prelude.{◌≡◌, IfOk, option_map};
ghost use Rattle.clap.specs.Words.{first_of, found_of, rows_of};
ghost use Rattle.hunk_command_line.specs.Line.{is_set};

use crate::asked::FileName;
use clap::ArgMatches;
use std::alloc::{AllocError, Global};

/// The argument's first text.
pub(super) fn text_of<'a>(found: &ArgMatches<'a>, id: &str) -> Option<&'a str>
    ensures { option_map (λ text. text.now) result
        ≡ first_of id.now (rows_of (found_of found.now)) }
{
    found.get_str(id)
}

/// Whether the flag is there.
pub(super) fn is_set(found: &ArgMatches<'_>, id: &str) -> bool
    ensures { result ≡ is_set id.now (rows_of (found_of found.now)) }
{
    match text_of(found, id) {
        Some(text) => text == "true",
        None => false,
    }
}

/// The argument as a file's name.
pub(super) fn name_of(
    alloc: Global,
    found: &ArgMatches<'_>,
    id: &str,
) -> Result<Option<FileName>, AllocError>
    ensures { IfOk result (λ name. name ≡ first_of id.now (rows_of (found_of found.now))) }
{
    match text_of(found, id) {
        Some(text) => Ok(Some(FileName::new(alloc, text)?)),
        None => Ok(None),
    }
}
