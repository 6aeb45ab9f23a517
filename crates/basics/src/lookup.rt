//! One search for entries of every kind that goes under a number.
ghost use Rattle.std.specs.Prelude.{◌≡◌, ℕ};
ghost use Rattle.basics.specs.Lookup.{first_of};

/// An entry that goes under a number.
pub trait Numbered {
    ghost numbered: { Self → ℕ };

    fn number(&self) -> u8
        ensures { result ≡ numbered self.now };
}

/// The place of the first entry under a number.
pub fn find_first<T: Numbered>(entries: &[T], wanted: u8) -> Option<usize>
    ensures { result ≡ first_of T.Numbered.numbered wanted entries.now }
{
    entries.iter().position(|entry| entry.number() == wanted)
}
