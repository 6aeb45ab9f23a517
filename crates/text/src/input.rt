//! What a program is given to read.
ghost use Rattle.std.specs.Prelude.{◌≡◌, ◌+◌, IfOk, IfSome, take, vec_items};
ghost use Rattle.std.specs.Option.{option_map};
ghost use Rattle.text.specs.Hex.{bytes_of};
ghost use Rattle.text.specs.Input.{limit, sheet_in};
ghost use Rattle.text.specs.Lines.{first_line};

use crate::hex::unhex;
use crate::lines::split_line;
use std::alloc::{AllocError, Global};
use std::io;
use std::io::Read;

/// The most bytes that an input may have.
pub const LIMIT: usize = 65_536;

// The bytes that a source gives, up to so many.
fn read_front<R: Read + Drop>(heap: Global, source: R, most: usize) -> io::Result<Vec<u8>>
    ensures { IfOk result (λ input. IfSome (R.remaining source) (λ bytes. vec_items input ≡ take most bytes)) }
{
    let mut input = Vec::new(heap);
    source.take(most as u64).read_to_end(&mut input)?;
    Ok(input)
}

/// The bytes that a source gives, up to one past the limit: so many show that an input is too long.
pub fn read_input<R: Read + Drop>(heap: Global, source: R) -> io::Result<Vec<u8>>
    ensures { IfOk result (λ input. IfSome (R.remaining source) (λ bytes. vec_items input ≡ take (limit + 1) bytes)) }
{
    read_front(heap, source, LIMIT + 1)
}

/// The bytes that the first line of a text spells in lower-case hex, or none where it is not hex.
pub fn first_line_bytes(heap: Global, text: &[u8]) -> Result<Option<Vec<u8>>, AllocError>
    ensures { IfOk result (λ o. option_map vec_items o ≡ bytes_of (first_line text.now)) }
{
    let (line, _) = split_line(text);
    unhex(heap, line)
}

/// The sheet on the first line of an input; none where the line is not hex or the input is too long.
pub fn sheet_bytes(heap: Global, input: &[u8]) -> Result<Option<Vec<u8>>, AllocError>
    ensures { IfOk result (λ o. option_map vec_items o ≡ sheet_in input.now) }
{
    if input.len() > LIMIT {
        return Ok(None);
    }
    first_line_bytes(heap, input)
}
