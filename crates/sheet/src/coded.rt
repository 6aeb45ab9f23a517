//! Values that stand in a sheet as codes of a width.
ghost use Rattle.std.specs.Prelude.{◌≡◌, ℕ, Option};
ghost use Rattle.sheet.specs.Codes.{Agree, demand_code, demanded_by, flag_code, flag_of, release_code, release_of, side_code, side_of};
ghost use Rattle.sheet.specs.CodesAgree.{demand_agree, flag_agree, release_agree, side_agree};

use crate::layout::{Position, Release, Side};

// A trait of its own, since `bool` and `Option` are not this crate's to give a `TryFrom`.
pub(crate) trait Coded: Copy {
    ghost WIDTH: { ℕ };

    const WIDTH: usize;

    ghost code_of: { Self → ℕ };

    ghost value_of: { ℕ → Option Self };

    fn code(self) -> usize
        ensures { result ≡ code_of self };

    // The value that a code stands for, if it stands for one.
    fn from_code(code: usize) -> Option<Self>
        ensures { result ≡ value_of code };

    ghost agree: { Agree WIDTH code_of value_of };
}

impl Coded for Side {
    ghost WIDTH = { 1 };

    const WIDTH: usize = 1;

    ghost code_of = { side_code };

    ghost value_of = { side_of };

    ghost agree = { side_agree };

    fn code(self) -> usize {
        self as usize
    }

    fn from_code(code: usize) -> Option<Self> {
        Some(if code == 0 { Side::Up } else { Side::Down })
    }
}

impl Coded for Release {
    ghost WIDTH = { 1 };

    const WIDTH: usize = 1;

    ghost code_of = { release_code };

    ghost value_of = { release_of };

    ghost agree = { release_agree };

    fn code(self) -> usize {
        self as usize
    }

    fn from_code(code: usize) -> Option<Self> {
        Some(if code == 0 {
            Release::Station
        } else {
            Release::Train
        })
    }
}

// What is demanded of a point.
impl Coded for Option<Position> {
    ghost WIDTH = { 2 };

    const WIDTH: usize = 2;

    ghost code_of = { demand_code };

    ghost value_of = { demanded_by };

    ghost agree = { demand_agree };

    fn code(self) -> usize {
        self.map_or(0, |position| position as usize)
    }

    fn from_code(code: usize) -> Option<Self> {
        // No match on the code: over a row of points it branches differently from one to the next, which costs more than to read it.
        // For code 0 the position is not used.
        let position = if code == 1 {
            Position::Plus
        } else {
            Position::Minus
        };
        (code < 3).then_some((code > 0).then_some(position))
    }
}

impl Coded for bool {
    ghost WIDTH = { 1 };

    const WIDTH: usize = 1;

    ghost code_of = { flag_code };

    ghost value_of = { flag_of };

    ghost agree = { flag_agree };

    fn code(self) -> usize {
        usize::from(self)
    }

    fn from_code(code: usize) -> Option<Self> {
        Some(code == 1)
    }
}
