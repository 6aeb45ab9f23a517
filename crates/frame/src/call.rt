//! The calls of a duty.
ghost use Rattle.frame.specs.Entries.{Names};

#[derive(Clone, Copy, Debug, PartialEq, Eq)]
pub enum Call {
    Give,
    Throw,
    Trail,
    Recouple,
    Set,
    Hold,
    Pull,
    Restore,
    Contact,
    Release,
    Normal,
    Return,
    Cut,
    Mend,
}

/// A letter that names no call.
#[derive(Clone, Copy, Debug, PartialEq, Eq)]
pub struct UnknownLetter(pub u8);

/// The call that a letter names in a list.
impl TryFrom<u8> for Call {
    type Error = UnknownLetter;

    ghost try_from_gives = { Names };

    fn try_from(letter: u8) -> Result<Call, UnknownLetter> {
        match letter {
            b'g' => Ok(Call::Give),
            b'p' => Ok(Call::Throw),
            b't' => Ok(Call::Trail),
            b'c' => Ok(Call::Recouple),
            b's' => Ok(Call::Set),
            b'h' => Ok(Call::Hold),
            b'l' => Ok(Call::Pull),
            b'd' => Ok(Call::Restore),
            b'a' => Ok(Call::Contact),
            b'f' => Ok(Call::Release),
            b'n' => Ok(Call::Normal),
            b'b' => Ok(Call::Return),
            b'x' => Ok(Call::Cut),
            b'm' => Ok(Call::Mend),
            _ => Err(UnknownLetter(letter)),
        }
    }
}
