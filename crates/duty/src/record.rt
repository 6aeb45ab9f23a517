//! The record of a duty, from the bytes of its input.
ghost use Rattle.std.specs.Prelude.{◌≡◌, IfOk, string_bytes};
ghost use Rattle.duty.specs.Listing.{listing_of, sheet_line};

use sheet::reader::read;
use std::alloc::{AllocError, Global};
use text::answers::{ACCEPTED_LINE, NO_SHEET_LINE, refused_line};
use text::input::sheet_bytes;

// The line of a sheet: 0 and 0 where it is accepted, else its fault's number and place.
fn sheet_line(heap: Global, sheet: &[u8]) -> Result<String, AllocError>
    ensures { IfOk result (λ s. string_bytes s ≡ sheet_line sheet.now) }
{
    match read(sheet) {
        Ok(_) => String::from_str(heap, ACCEPTED_LINE),
        Err(fault) => refused_line(heap, fault.flaw.number(), fault.place),
    }
}

/// What the program prints for an input.
pub(crate) fn listing(heap: Global, input: &[u8]) -> Result<String, AllocError>
    ensures { IfOk result (λ s. string_bytes s ≡ listing_of input.now) }
{
    match sheet_bytes(heap, input)? {
        Some(sheet) => sheet_line(heap, sheet.as_slice()),
        None => String::from_str(heap, NO_SHEET_LINE),
    }
}
