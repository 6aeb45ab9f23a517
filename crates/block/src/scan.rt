//! A scan of the numbers below a bound.
ghost use Rattle.std.specs.Prelude.{◌≡◌, ℕ, Bool};
ghost use Rattle.basics.specs.Scan.{any};

/// Whether one of the numbers below `n` passes a test.
// Apart from `Block::any_out`, so that a wrong one is refused where it stands.
pub(crate) fn any_below<F: Fn(usize) -> bool>(n: usize, test: F) -> bool
    requires { F.IsAlwaysCallable test }
    ensures { (f : ℕ → Bool) → ((k : ℕ) (b : Bool) → F.post test k b → b ≡ f k) → result ≡ any f n }
{
    (0..n).any(|k| test(k))
}
