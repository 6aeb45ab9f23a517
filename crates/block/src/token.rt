//! What stands at a line's place in a block, and shows where the consent is.
ghost use Rattle.std.specs.Prelude.{◌≡◌, ℕ, Bool, true, false};

pub trait Token: Copy {
    ghost out: { Self → Bool };

    // The fewest lines that a block of such tokens has.
    ghost FEWEST: { ℕ };

    const FEWEST: usize;

    /// As it stands while the consent is at home.
    fn home() -> Self
        ensures { out result ≡ false };

    /// As it stands while the consent is out.
    fn away() -> Self
        ensures { out result ≡ true };

    fn is_out(&self) -> bool
        ensures { result ≡ out self.now };
}
