//! Bytes in lower-case hex.
ghost use Rattle.std.specs.Prelude.{◌≡◌, ◌<◌, IfSome, IfOk, vec_items};
ghost use Rattle.std.specs.Option.{option_map};
ghost use Rattle.text.specs.Hex.{byte_of, bytes_of, digit_of};

use std::alloc::{AllocError, Global};

fn digit(b: u8) -> Option<u8>
    ensures value { result ≡ digit_of b }
    ensures small { IfSome result (λ n. n < 16) }
{
    match b {
        b'0'..=b'9' => Some(b - b'0'),
        b'a'..=b'f' => Some(b - b'a' + 10),
        _ => None,
    }
}

fn byte(high: u8, low: u8) -> Option<u8>
    ensures { result ≡ byte_of high low }
{
    Some(digit(high)? * 16 + digit(low)?)
}

// The bytes that a text spells, or none where it is not hex.
pub(crate) fn unhex(heap: Global, text: &[u8]) -> Result<Option<Vec<u8>>, AllocError>
    ensures { IfOk result (λ o. option_map vec_items o ≡ bytes_of text.now) }
{
    let mut bytes = Vec::new(heap);
    for pair in text.chunks(2) {
        let [high, low] = pair else {
            return Ok(None);
        };
        let Some(byte) = byte(*high, *low) else {
            return Ok(None);
        };
        bytes.push(byte)?;
    }
    Ok(Some(bytes))
}
