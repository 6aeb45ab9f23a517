//! An entry of a duty's list: a call, and what it was answered.
ghost use Rattle.std.specs.Prelude.{◌≡◌};
ghost use Rattle.frame.specs.Entries.{unworked};

use basics::lookup::Numbered;

// Letter and answer are numbers, since a host lends rows of any bytes and reads them back as numbers.
#[derive(Clone, Copy, Debug, PartialEq, Eq)]
pub struct Entry {
    /// Names the call.
    pub letter: u8,
    pub number: usize,
    /// 0 where the call was accepted, else the number of its refusal.
    pub answer: u8,
    pub place: usize,
}

impl Entry {
    /// A call that is still to be worked.
    pub fn new(letter: u8, number: usize) -> Entry
        ensures { result ≡ unworked letter number }
    {
        Entry {
            letter,
            number,
            answer: 0,
            place: 0,
        }
    }
}

/// Goes under its answer.
impl Numbered for Entry {
    ghost numbered = { λ e. e.answer };

    fn number(&self) -> u8 {
        self.answer
    }
}
