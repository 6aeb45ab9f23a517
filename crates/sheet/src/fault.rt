//! Why a sheet or a writing is refused, and where.
ghost use Rattle.std.specs.Prelude.{◌≡◌};
ghost use Rattle.sheet.specs.Faults.{number_of};

use basics::lookup::Numbered;

/// What is wrong with a sheet, or keeps one from being written, each under its number.
#[derive(Clone, Copy, Debug, PartialEq, Eq)]
pub enum Flaw {
    /// The sheet ends inside a field.
    EndsInside = 1,
    /// The edition is not one that is read.
    WrongEdition = 2,
    /// A count lies outside its limits.
    CountOutside = 3,
    /// A route's lever or signal is one that the plan has not.
    NumberTooHigh = 4,
    /// A point's code is none of nothing, plus and minus.
    BadPointCode = 5,
    /// A filling bit is set, or a byte follows the sheet.
    BadFilling = 6,
    /// Two routes stand on one lever and side.
    SharedLever = 7,
    /// A lever has no route.
    IdleLever = 8,
    /// A signal has no route.
    IdleSignal = 9,
    /// A blank plan has no sheet.
    BlankPlan = 11,
    /// The buffer is too short for the sheet.
    NoRoom = 37,
}

impl Flaw {
    /// The number that is returned for it.
    pub fn number(self) -> u8
        ensures { result ≡ number_of self }
    {
        self as u8
    }

    // The fault of this kind at a place.
    pub(crate) fn at(self, place: usize) -> SheetFault
        ensures { result ≡ record { flaw = self; place = place } }
    {
        SheetFault { flaw: self, place }
    }
}

/// A sheet's fault: what is wrong, and at which bit, route, lever or signal; at place 0 where a writing is refused.
#[derive(Clone, Copy, Debug, PartialEq, Eq)]
pub struct SheetFault {
    pub flaw: Flaw,
    pub place: usize,
}

impl Numbered for SheetFault {
    ghost numbered = { λ x. number_of x.flaw };

    fn number(&self) -> u8 {
        self.flaw.number()
    }
}
