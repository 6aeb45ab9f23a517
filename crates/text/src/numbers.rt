//! Numbers in decimal.
ghost use Rattle.std.specs.Prelude.{◌≡◌};
ghost use Rattle.text.specs.Numerals.{numeral_of, spelled_to};

// The number that digits spell, or none where there is another byte among them or it is above `most`.
fn spelled(text: &[u8], most: u32) -> Option<usize>
    ensures { result ≡ spelled_to most text.now }
{
    let most = most as usize;
    let mut number = 0;
    for byte in text {
        if !byte.is_ascii_digit() {
            return None;
        }
        number = number * 10 + (*byte - b'0') as usize;
        if number > most {
            return None;
        }
    }
    Some(number)
}

/// The number that a text spells without leading zeros, or none where it is no such number or above `most`.
pub fn number(text: &[u8], most: u32) -> Option<usize>
    ensures { result ≡ numeral_of most text.now }
{
    match text {
        [] | [b'0', _, ..] => None,
        _ => spelled(text, most),
    }
}
