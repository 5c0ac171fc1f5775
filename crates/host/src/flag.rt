// Flags and errors as numbers: an exported struct may hold no enum, and a bool of a caller may hold any octet.
ghost use Rattle.std.specs.Prelude.{◌≡◌};
ghost use Rattle.host.specs.Flag.{flag_number, answer_error};

use records::error::VsError;

// No error: the errors are 0 to 14.
pub const NO_ERROR: u8 = 255;

// The number of a flag; 1 is true.
pub fn flag_number(b: bool) -> u8
    ensures { result ≡ flag_number b }
{
    u8::from(b)
}

// The number of an answer's error.
pub fn answer_error(answer: Result<(), VsError>) -> u8
    ensures { result ≡ answer_error answer }
{
    match answer {
        Ok(()) => NO_ERROR,
        Err(e) => e.number(),
    }
}
