//! The worked duty of the documents, for tests and trials.
#![tactic(auto)]

ghost use Rattle.std.specs.Prelude.{◌≡◌};
ghost use Rattle.worked.specs.Worked.{ExamplesStand, worked_duty};

use frame::entry::Entry;

// Apart from `worked_duty`, so that a wrong one is refused where it stands.
fn calls() -> [Entry; 19]
    ensures calls { result ≡ worked_duty }
    ensures examples { ExamplesStand }
{
    [
        Entry::new(b's', 0),
        Entry::new(b'g', 0),
        Entry::new(b'g', 1),
        Entry::new(b's', 0),
        Entry::new(b'p', 0),
        Entry::new(b'l', 0),
        Entry::new(b'h', 0),
        Entry::new(b'l', 0),
        Entry::new(b't', 0),
        Entry::new(b'd', 0),
        Entry::new(b'l', 0),
        Entry::new(b'c', 0),
        Entry::new(b'l', 0),
        Entry::new(b'a', 0),
        Entry::new(b'f', 0),
        Entry::new(b'd', 0),
        Entry::new(b'f', 0),
        Entry::new(b'n', 0),
        Entry::new(b'b', 0),
    ]
}

/// A duty on the worked sheet, from a refused set to the return of the consent. The contract has what its calls and some others
/// are answered there, too.
pub fn worked_duty() -> [Entry; 19]
    ensures calls { result ≡ worked_duty }
    ensures examples { ExamplesStand }
{
    calls()
}
