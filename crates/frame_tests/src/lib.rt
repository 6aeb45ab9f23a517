//! Tests of the frame: the worked duty by calls and as a list, over both makes of block, and what a loading refuses.
#![tactic(auto)]

#[cfg(test)]
mod tests {
    use basics::lookup::{Numbered, find_first};
    use block::interface::Block;
    use block::key_cabinet::KeyCabinet;
    use block::wire_pair::WirePair;
    use board::answer::{self, Answer};
    use board::board::{Arm, Coupling, Lever, Stage};
    use frame::call::Call;
    use frame::entry::Entry;
    use frame::frame::Frame;
    use sheet::plan::Plan;
    use sheet::reader::read;
    use sheet::worked::worked_sheet;
    use std::process::Abort;
    use std::test::Fail;

    // A call by its letter and number, and its answer and place.
    #[derive(Clone, Copy)]
    struct Row(u8, usize, u8, usize);

    const WORKED: [Row; 21] = [
        Row(b's', 0, 19, 0),
        Row(b'g', 0, 0, 0),
        Row(b'g', 1, 33, 1),
        Row(b's', 0, 0, 0),
        Row(b'p', 0, 16, 0),
        Row(b'l', 0, 26, 0),
        Row(b'h', 0, 0, 0),
        Row(b'l', 0, 0, 0),
        Row(b't', 0, 0, 0),
        Row(b'd', 0, 0, 0),
        Row(b'l', 0, 15, 0),
        Row(b'c', 0, 0, 0),
        Row(b'l', 0, 0, 0),
        Row(b'a', 0, 0, 0),
        Row(b'f', 0, 24, 0),
        Row(b'd', 0, 0, 0),
        Row(b'f', 0, 0, 0),
        Row(b'n', 0, 0, 0),
        Row(b'b', 0, 0, 0),
        // no call has the letter, and no route the number
        Row(b'z', 7, 10, 7),
        Row(b'g', 3, 11, 3),
    ];

    // The tests of sheet have the same line; crates of tests share nothing.
    fn worked_plan() -> Result<Plan, Fail> {
        read(&worked_sheet()).map_err(|_| Fail::new("the worked sheet is refused"))
    }

    // As the tables of tests have it: two numbers, 0 and 0 where a call is accepted.
    fn told(answer: Answer) -> (u8, usize) {
        (answer::number(answer), answer::place(answer))
    }

    // What the rows are answered, one call after the other.
    fn by_calls<B: Block>(frame: &mut Frame<B>) -> [(u8, usize); 21] {
        let mut said = [(0, 0); 21];
        for (answer, row) in said.iter_mut().zip(WORKED.iter()) {
            *answer = match Call::try_from(row.0) {
                Ok(call) => told(frame.work(call, row.1)),
                Err(_) => (10, row.1),
            };
        }
        said
    }

    fn works_by_calls<B: Block + Drop>(rt: &impl Abort, block: B) -> Result<(), Fail> {
        let plan = worked_plan()?;
        let mut frame = Frame::new(block);
        let loading = told(frame.load(plan));
        let said = by_calls(&mut frame);
        let _ = frame.close();
        assert_eq!(rt; loading, (0, 0));
        for (answer, row) in said.iter().zip(WORKED.iter()) {
            assert_eq!(rt; *answer, (row.2, row.3));
        }
        Ok(())
    }

    fn works_as_a_list<B: Block + Drop>(rt: &impl Abort, block: B) -> Result<(), Fail> {
        let plan = worked_plan()?;
        let mut entries = [Entry::new(0, 0); 21];
        for (entry, row) in entries.iter_mut().zip(WORKED.iter()) {
            *entry = Entry::new(row.0, row.1);
        }
        let mut frame = Frame::new(block);
        let loading = told(frame.duty(plan, &mut entries));
        let _ = frame.close();
        assert_eq!(rt; loading, (0, 0));
        for (entry, row) in entries.iter().zip(WORKED.iter()) {
            assert_eq!(rt; (entry.letter, entry.number), (row.0, row.1));
            assert_eq!(rt; (entry.answer, entry.place), (row.2, row.3));
        }
        // The first entry under a number is found by its answer.
        assert_eq!(rt; find_first(&entries, 16), Some(4));
        assert_eq!(rt; find_first(&entries, 36), None);
        Ok(())
    }

    #[test]
    fn the_worked_duty_over_both_makes(rt: HostRuntime) -> Result<(), Fail> {
        works_by_calls(&rt, WirePair::new())?;
        works_by_calls(&rt, KeyCabinet::new(3))?;
        works_as_a_list(&rt, WirePair::new())?;
        works_as_a_list(&rt, KeyCabinet::new(3))
    }

    // What a host is shown: loaded, point 0 coupled, lever 0 up, field 0 cleared, arm 0 at clear, route 0 set, signalled and out,
    // and the line whole.
    fn shown<B: Block>(frame: &Frame<B>) -> [bool; 9] {
        [
            frame.is_loaded(),
            frame
                .point(0)
                .is_some_and(|point| point.coupling == Coupling::Coupled),
            frame.lever(0) == Some(Lever::Up),
            frame.field(0) == Some(Stage::Cleared),
            frame.arm(0) == Some(Arm::Clear),
            frame.is_set(0),
            frame.is_signalled(0),
            frame.is_out(0),
            frame.is_whole(),
        ]
    }

    #[test]
    fn what_a_host_is_shown(rt: HostRuntime) -> Result<(), Fail> {
        let plan = worked_plan()?;
        let mut frame = Frame::new(WirePair::new());
        let before = shown(&frame);
        let _ = frame.load(plan);
        let loaded = shown(&frame);
        let _ = frame.give(0);
        let _ = frame.set(0);
        let _ = frame.hold(0);
        let _ = frame.pull(0);
        let pulled = shown(&frame);
        let beyond = frame.point(1).is_some() | frame.field(3).is_some();
        let _ = frame.trail(0);
        let _ = frame.cut();
        let trailed = shown(&frame);
        let _ = frame.close();
        assert_eq!(rt;
            before,
            [false, false, false, false, false, false, false, false, true]
        );
        assert_eq!(rt;
            loaded,
            [true, true, false, false, false, false, false, false, true]
        );
        assert_eq!(rt;
            pulled,
            [true, true, true, true, true, true, true, true, true]
        );
        assert!(rt; !beyond);
        assert_eq!(rt;
            trailed,
            [true, false, true, true, false, true, false, true, false]
        );
        Ok(())
    }

    #[test]
    fn what_a_loading_refuses(rt: HostRuntime) -> Result<(), Fail> {
        let plan = worked_plan()?;
        let mut frame = Frame::new(KeyCabinet::new(2));
        let unloaded = [
            told(frame.give(0)),
            told(frame.throw(0)),
            told(frame.pull(0)),
            told(frame.mend()),
        ];
        let few = told(frame.load(plan));
        let blank = told(frame.load(Plan::blank()));
        let _ = frame.close();
        assert_eq!(rt; unloaded, [(11, 0), (11, 0), (11, 0), (35, 0)]);
        assert_eq!(rt; (few, blank), ((13, 0), (11, 0)));

        let mut frame = Frame::new(WirePair::new());
        let _ = frame.load(plan);
        let twice = told(frame.load(plan));
        let _ = frame.give(2);
        // The block goes on to another frame with its consent still out.
        let mut next = Frame::new(frame.close());
        let out = told(next.load(plan));
        let _ = next.close();
        assert_eq!(rt; (twice, out), ((12, 0), (14, 0)));
        Ok(())
    }
}
