//! What a command line asks for.
ghost use Rattle.std.specs.Prelude.{◌≡◌, Some, IfOk};
ghost use Rattle.hunk_command_line.specs.FaultTexts.{fault_text};
ghost use Rattle.hunk_command_line.specs.declared.asked.OrderFault.TheVariants.{Memory};

use std::alloc::{AllocError, Global};
use std::error::Error;
use std::fmt;
use std::marker::Model;

/// What is printed where the words ask for the version: the program's name and version, and the logic
/// that its proofs are written for. Whether a build was proved, the program cannot know.
pub const VERSION_LINE: &str = "hunkinfo 0.3.0 (logic dac8208d650f15bf)\n";

/// A file's name, as the command line has it.
#[derive(Debug, Drop)]
pub struct FileName {
    text: String,
}

impl Model for FileName {
    ghost use Rattle.std.specs.Prelude.{List, ℕ};
    ghost use Rattle.std.specs.String.{string_bytes};

    ghost Value = { List ℕ };

    ghost view = { λ name. string_bytes name.text };
}

impl FileName {
    /// A name of its own with the same text.
    pub(crate) fn new(alloc: Global, text: &str) -> Result<FileName, AllocError>
        ensures { IfOk result (λ name. name ≡ text.now) }
    {
        Ok(FileName {
            text: String::from_str(alloc, text)?,
        })
    }

    /// The same name once more.
    ///
    /// # Errors
    ///
    /// Where memory is refused.
    pub fn try_clone(&self, alloc: Global) -> Result<FileName, AllocError>
        ensures { IfOk result (λ name. name ≡ self.now) }
    {
        FileName::new(alloc, self.as_str())
    }

    /// The name's text.
    pub fn as_str(&self) -> &str
        ensures { result.now ≡ self.now }
    {
        self.text.as_str()
    }
}

/// What the command line asks for. Where `file` is `None`, standard input is read; where `hex` is
/// set, the input is hexadecimal text; where `wide` is set, its plain spelling is taken for it.
#[derive(Debug, Drop)]
pub enum Order {
    /// `show`: lists a load file or an object file.
    Show {
        /// Whether the input is hexadecimal text.
        hex: bool,
        /// Whether the plain spelling of the input is taken.
        wide: bool,
        /// The file to read; standard input where there is none.
        file: Option<FileName>,
    },
    /// `validate`: checks a load file or an object file.
    Validate {
        /// Whether the input is hexadecimal text.
        hex: bool,
        /// Whether the plain spelling of the input is taken.
        wide: bool,
        /// The file to read; standard input where there is none.
        file: Option<FileName>,
    },
    /// `relocate`: loads a load file from the address `base` on, and prints its segments, which
    /// may have at most `budget` bytes together.
    Relocate {
        /// Whether the input is hexadecimal text.
        hex: bool,
        /// Whether the plain spelling of the input is taken.
        wide: bool,
        /// The address of the first hunk.
        base: u32,
        /// The most bytes that all segments may have together.
        budget: u64,
        /// The file to read; standard input where there is none.
        file: Option<FileName>,
    },
    /// `rewrite`: writes the file `input` again, to `output`. Where `strip` is set, what a loader
    /// does not need is left out.
    Rewrite {
        /// Whether what a loader does not need is left out.
        strip: bool,
        /// Whether the plain spelling of the input is taken.
        wide: bool,
        /// The file to read.
        input: FileName,
        /// The file to write.
        output: FileName,
    },
}

/// Why a command line is no order.
#[derive(Debug, Drop)]
pub enum OrderFault {
    /// The words are none of the program's command lines. The text says why, to a person, and ends
    /// in a line end.
    Line(String),
    /// A word is not UTF-8.
    NotText,
    /// The words ask for help, which is this text.
    Help(String),
    /// The words ask for the version.
    Version,
    /// Memory was refused.
    Memory,
}

impl fmt::Display for OrderFault {
    ghost output = { λ fault. Some (fault_text fault) };

    fn fmt<W: fmt::Write>(&self, f: &mut fmt::Formatter<W>) -> fmt::Result {
        match self {
            OrderFault::Line(_) | OrderFault::NotText => write!(f, "command line refused"),
            OrderFault::Help(text) => write!(f, "{text}"),
            OrderFault::Version => write!(f, "{VERSION_LINE}"),
            OrderFault::Memory => write!(f, "out of memory"),
        }
    }
}

impl Error for OrderFault {}

impl From<AllocError> for OrderFault {
    ghost from_gives = { λ _ fault. fault ≡ Memory };

    fn from(_error: AllocError) -> OrderFault {
        OrderFault::Memory
    }
}
