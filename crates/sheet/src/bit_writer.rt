//! The bit writer: fields one after the other without gaps, most significant bit first.
ghost use Rattle.std.specs.Prelude.{◌≡◌, ◌*◌, ◌<◌, ◌≤◌, [], ◌∷◌, length};
ghost use Rattle.sheet.specs.Encode.{bits_of, codes_bits};
ghost use Rattle.sheet.specs.Writing.{HasRoom, Wrote};

use crate::coded::Coded;

/// A buffer, and the bit that is written next. Each bit pushes its byte up by one, so nothing need be cleared first.
// The lender's buffer and a place beside it, since the field crates have no heap.
#[derive(Drop)]
pub(crate) struct BitWriter<'a> {
    pub(crate) out: &'a mut [u8],
    pub(crate) at: usize,
}

impl BitWriter<'_> {
    fn push(&mut self, bit: u8)
        requires bit { bit < 2 }
        requires room { HasRoom self.old 1 }
        ensures { Wrote self.old self.new (bit ∷ []) }
    {
        let j = self.at / 8;
        self.out[j] = self.out[j] % 128 * 2 + bit;
        self.at += 1;
    }

    // The `width` low bits of a value.
    pub(crate) fn put(&mut self, width: usize, value: usize)
        requires width { width ≤ 8 }
        requires room { HasRoom self.old width }
        ensures { Wrote self.old self.new (bits_of width value) }
    {
        // Over the places of the bits in the value, from the top: numbers that index nothing.
        for k in (0..width).rev() {
            self.push(((value >> k) % 2) as u8);
        }
    }

    pub(crate) fn put_coded<T: Coded>(&mut self, value: T)
        requires { HasRoom self.old T.WIDTH }
        ensures { Wrote self.old self.new (bits_of T.WIDTH (T.code_of value)) }
    {
        self.put(T::WIDTH, value.code());
    }

    pub(crate) fn put_row<T: Coded>(&mut self, row: &[T])
        requires { HasRoom self.old (length (codes_bits T.WIDTH T.code_of row.now)) }
        ensures { Wrote self.old self.new (codes_bits T.WIDTH T.code_of row.now) }
    {
        for value in row {
            self.put_coded(*value);
        }
    }
}
