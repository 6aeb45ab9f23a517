//! Lists of calls, and the law of a duty.
ghost use Rattle.std.specs.Prelude.{◌≡◌};
ghost use Rattle.frame.specs.Entries.{entry_after, entry_answer, noted};
ghost use Rattle.frame.specs.Home.{Homing};
ghost use Rattle.frame.specs.Law.{CallsGoOn, Law};
ghost use Rattle.frame.specs.Views.{Runs, Serves, view};

use crate::call::Call;
use crate::entry::Entry;
use crate::frame::Frame;
use block::interface::Block;
use board::answer::{self, Answer, FrameFault};
use sheet::plan::Plan;

// Apart from `law_stands`, so that a wrong one is refused where it stands. Both answer a number, as a wrong one has to have
// something to get wrong.
fn law_holds() -> u8
    ensures law { Law }
    ensures calls { CallsGoOn }
    ensures homing { Homing }
    ensures nought { result ≡ 0 }
{
    0
}

/// Whatever a duty has come to is lawful, each call takes every duty on, and while the line is whole a route that is out can be
/// brought home. It is here for its contract, and answers 0.
pub fn law_stands() -> u8
    ensures law { Law }
    ensures calls { CallsGoOn }
    ensures homing { Homing }
    ensures nought { result ≡ 0 }
{
    law_holds()
}

impl<B: Block> Frame<B> {
    // Works the call that an entry names, with its number.
    fn work_named(&mut self, entry: &Entry) -> Answer
        ensures answer { result ≡ entry_answer entry.now (view B.meaning self.old) }
        ensures after { view B.meaning self.new ≡ entry_after entry.now (view B.meaning self.old) }
    {
        let unknown = FrameFault::UnknownCall.at(entry.number);
        let call = Call::try_from(entry.letter).map_err(|_| unknown)?;
        self.work(call, entry.number)
    }

    // Works one entry, and writes its answer and place into it.
    fn work_entry(&mut self, entry: &mut Entry)
        ensures noted { entry.new ≡ noted entry.old (entry_answer entry.old (view B.meaning self.old)) }
        ensures after { view B.meaning self.new ≡ entry_after entry.old (view B.meaning self.old) }
    {
        let said = self.work_named(entry);
        entry.answer = answer::number(said);
        entry.place = answer::place(said);
    }

    // Works the entries of a list in their order. Apart from `run`, so that a wrong `run` is refused where it stands.
    fn work_all(&mut self, entries: &mut [Entry])
        ensures { Runs B.meaning entries.old entries.new self.old self.new }
    {
        for entry in entries.iter_mut() {
            self.work_entry(entry);
        }
    }

    /// Works a list: each entry gets its answer and place written into it, and its letter and number stay.
    pub fn run(&mut self, entries: &mut [Entry])
        ensures { Runs B.meaning entries.old entries.new self.old self.new }
    {
        self.work_all(entries);
    }

    // A loading and, where it is accepted, a list. Apart from `duty`, so that a wrong `duty` is refused where it stands.
    fn load_and_run(&mut self, plan: Plan, entries: &mut [Entry]) -> Answer
        ensures { Serves B.meaning plan entries.old entries.new self.old self.new result }
    {
        self.load(plan)?;
        self.run(entries);
        Ok(())
    }

    /// A duty: loads a plan and, where that is accepted, works a list. Where it is refused, all stays as it is.
    pub fn duty(&mut self, plan: Plan, entries: &mut [Entry]) -> Answer
        ensures { Serves B.meaning plan entries.old entries.new self.old self.new result }
    {
        self.load_and_run(plan, entries)
    }
}
