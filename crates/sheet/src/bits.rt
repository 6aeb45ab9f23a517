//! The bit reader: fields that follow one another without gaps, most significant bit first.
ghost use Rattle.std.specs.Prelude.{◌≡◌, ◌-◌, ◌<◌, ◌≤◌, IfOk};
ghost use Rattle.std.specs.Option.{MatchOption};
ghost use Rattle.sheet.specs.Bits.{Reads, bit_of, fault, field_at};
ghost use Rattle.sheet.specs.declared.fault.Flaw.TheVariants.{BadFilling};
ghost use Rattle.sheet.specs.Fields.{coded_at, count_at, edition_at, filling_at, number_at, zeros_at};

use crate::coded::Coded;
use crate::fault::{Flaw, SheetFault};

/// A sheet's bytes, and the bit at which the next field begins.
// Lent bytes and a place beside them, since the field crates have no heap.
#[derive(Drop)]
pub(crate) struct BitReader<'a> {
    bytes: &'a [u8],
    at: usize,
}

// Each asks that it begins within 4,000 bits: a ghost field could not say so, since a reading moves on. A field's width is asked
// wherever it is handed over as a number.
impl<'a> BitReader<'a> {
    pub(crate) fn new(bytes: &'a [u8]) -> Self
        ensures sheet { result.bytes.now ≡ bytes.now }
        ensures start { result.at ≡ 0 }
    {
        BitReader { bytes, at: 0 }
    }

    // Bit `i`, 0 past the end.
    fn bit(&self, i: usize) -> u8
        ensures { result ≡ bit_of self.now.bytes.now i }
    {
        self.bytes
            .get(i / 8)
            .map_or(0, |byte| (*byte >> (7 - i % 8)) % 2)
    }

    // The next `width` bits as a number.
    fn field(&mut self, width: usize) -> Result<usize, SheetFault>
        requires width { (0 < width) × (width ≤ 8) }
        requires near { self.old.at ≤ 4000 }
        ensures { Reads self.old result self.new (λ s i. field_at s i width) width }
    {
        let start = self.at;
        if (start + width - 1) / 8 >= self.bytes.len() {
            return Err(Flaw::EndsInside.at(start));
        }
        let mut value: usize = 0;
        // Over the places of the bits: numbers that index nothing.
        for k in 0..width {
            value = value * 2 + usize::from(self.bit(start + k));
        }
        self.at = start + width;
        Ok(value)
    }

    pub(crate) fn edition(&mut self) -> Result<(), SheetFault>
        requires { self.old.at ≤ 4000 }
        ensures { Reads self.old result self.new edition_at 4 }
    {
        let place = self.at;
        if self.field(4)? != 1 {
            return Err(Flaw::WrongEdition.at(place));
        }
        Ok(())
    }

    pub(crate) fn count(
        &mut self,
        width: usize,
        least: usize,
        most: usize,
    ) -> Result<usize, SheetFault>
        requires width { (0 < width) × (width ≤ 8) }
        requires near { self.old.at ≤ 4000 }
        ensures read { Reads self.old result self.new (λ s i. count_at s i width least most) width }
        ensures within { IfOk result (λ n. (least ≤ n) × (n ≤ most)) }
    {
        let place = self.at;
        let n = self.field(width)?;
        if n < least || n > most {
            return Err(Flaw::CountOutside.at(place));
        }
        Ok(n)
    }

    // The number of a lever or a signal.
    pub(crate) fn number(&mut self, width: usize, limit: usize) -> Result<usize, SheetFault>
        requires width { (0 < width) × (width ≤ 8) }
        requires near { self.old.at ≤ 4000 }
        ensures read { Reads self.old result self.new (λ s i. number_at s i width limit) width }
        ensures below { IfOk result (λ n. n < limit) }
    {
        let place = self.at;
        let n = self.field(width)?;
        if n >= limit {
            return Err(Flaw::NumberTooHigh.at(place));
        }
        Ok(n)
    }

    // A field that is a code; only a point's may stand for no value.
    pub(crate) fn coded<T: Coded>(&mut self) -> Result<T, SheetFault>
        requires { self.old.at ≤ 4000 }
        ensures { Reads self.old result self.new (coded_at T.WIDTH T.value_of) T.WIDTH }
    {
        let place = self.at;
        let code = self.field(T::WIDTH)?;
        T::from_code(code).ok_or(Flaw::BadPointCode.at(place))
    }

    // The first bit from here up to bit `end` that is set, which no filling bit may be.
    fn first_set(&self, end: usize) -> Option<usize>
        requires { self.now.at ≤ end }
        ensures { MatchOption result
            (zeros_at self.now.bytes.now self.now.at (end - self.now.at) ≡ zeros_at self.now.bytes.now end 0)
            (λ p. zeros_at self.now.bytes.now self.now.at (end - self.now.at) ≡ fault BadFilling p) }
    {
        (self.at..end).find(|i| self.bit(*i) != 0)
    }

    // Zeros up to a whole byte, and no byte after them.
    pub(crate) fn filling(&mut self) -> Result<(), SheetFault>
        requires { self.old.at ≤ 4000 }
        ensures { Reads self.old result self.new filling_at 7 }
    {
        let end = (self.at + 7) / 8 * 8;
        if let Some(set) = self.first_set(end) {
            return Err(Flaw::BadFilling.at(set));
        }
        self.at = end;
        if end / 8 < self.bytes.len() {
            return Err(Flaw::BadFilling.at(end));
        }
        Ok(())
    }
}
