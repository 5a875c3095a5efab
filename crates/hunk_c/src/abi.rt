//! The interface that a program was compiled for.
ghost use Rattle.std.specs.Prelude.{◌≡◌};
ghost use Rattle.hunk_c.specs.Answers.{interface_number};

/// The number of the interface: it changes where a struct, or what a number means, does.
const INTERFACE: u32 = 1;

/// The number of the interface that the library has. A program was compiled for the one whose number
/// is that of its header.
#[unsafe(no_mangle)]
pub extern "C" fn hunk_abi() -> u32
    ensures { result ≡ interface_number }
{
    INTERFACE
}
