//! Lines that programs answer with.
ghost use Rattle.std.specs.Prelude.{◌≡◌, IfOk, string_bytes};
ghost use Rattle.text.specs.Answers.{refused_line};

use std::alloc::{AllocError, Global};

/// The line of a sheet that is accepted.
pub const ACCEPTED_LINE: &str = "sheet 0 0\n";

/// The line of an input that has no sheet: no hex on its first line, or too long.
pub const NO_SHEET_LINE: &str = "? 0 10 0\n";

/// The line of a sheet that is refused, with its fault's number and place.
pub fn refused_line(heap: Global, number: u8, place: usize) -> Result<String, AllocError>
    ensures { IfOk result (λ s. string_bytes s ≡ refused_line number place) }
{
    format!(in heap; "sheet {number} {place}\n")
}
