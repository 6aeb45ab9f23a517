//! Tests of the block: both makes are worked through one table of calls.
#![tactic(auto)]

#[cfg(test)]
mod tests {
    use basics::route_set::RouteSet;
    use block::fault::BlockFault;
    use block::interface::Block;
    use block::key_cabinet::KeyCabinet;
    use block::wire_pair::WirePair;
    use std::process::Abort;

    #[derive(Clone, Copy)]
    enum Call {
        Give(usize),
        TakeBack(usize),
        Cut,
        Mend,
    }

    // A call, the number of its answer (0 where it is accepted), and after it: which of routes 0 to 2 are out, and whether
    // the line is whole.
    #[derive(Clone, Copy)]
    struct Row(Call, u8, [bool; 3], bool);

    const NONE: [bool; 3] = [false, false, false];

    const FIRST: [bool; 3] = [true, false, false];

    const SECOND: [bool; 3] = [false, true, false];

    const THIRD: [bool; 3] = [false, false, true];

    const OUTER: [bool; 3] = [true, false, true];

    // Routes 0 and 1 are hostile to each other, and every route to 31, which is never out here.
    fn hostile_to(route: usize) -> RouteSet {
        let mut members = [false; 32];
        members[31] = true;
        if route < 2 {
            members[1 - route] = true;
        }
        RouteSet::from(members)
    }

    // As the table of tests has it: 0 where a call is accepted.
    fn number_of(answer: Result<(), BlockFault>) -> u8 {
        answer.err().map_or(0, BlockFault::number)
    }

    fn work<B: Block>(block: &mut B, call: Call) -> u8 {
        match call {
            Call::Give(route) => number_of(block.give(route, &hostile_to(route))),
            Call::TakeBack(route) => number_of(block.take_back(route)),
            Call::Cut => number_of(block.cut()),
            Call::Mend => number_of(block.mend()),
        }
    }

    fn follow<B: Block>(rt: &impl Abort, block: &mut B, lines: usize, table: &[Row]) {
        for Row(call, answer, out, whole) in table {
            assert_eq!(rt; work(block, *call), *answer);
            for (route, expected) in out.iter().enumerate() {
                assert_eq!(rt; block.is_out(route), *expected);
            }
            assert_eq!(rt; block.is_whole(), *whole);
            assert_eq!(rt; block.lines(), lines);
        }
    }

    #[test]
    fn both_makes_answer_alike(rt: HostRuntime) {
        let table = [
            Row(Call::TakeBack(0), 34, NONE, true),
            Row(Call::Give(0), 0, FIRST, true),
            Row(Call::Give(0), 32, FIRST, true),
            Row(Call::Give(1), 33, FIRST, true),
            Row(Call::Give(2), 0, OUTER, true),
            Row(Call::Give(32), 36, OUTER, true),
            Row(Call::TakeBack(32), 36, OUTER, true),
            Row(Call::Mend, 35, OUTER, true),
            Row(Call::Cut, 0, OUTER, false),
            Row(Call::Cut, 31, OUTER, false),
            Row(Call::Give(0), 31, OUTER, false),
            Row(Call::Give(32), 36, OUTER, false),
            Row(Call::TakeBack(0), 31, OUTER, false),
            Row(Call::TakeBack(32), 36, OUTER, false),
            Row(Call::Mend, 0, OUTER, true),
            Row(Call::TakeBack(0), 0, THIRD, true),
        ];
        follow(&rt, &mut WirePair::new(), 32, &table);
        follow(&rt, &mut KeyCabinet::new(32), 32, &table);
    }

    #[test]
    fn two_hooks(rt: HostRuntime) {
        let table = [
            Row(Call::Give(2), 36, NONE, true),
            Row(Call::TakeBack(2), 36, NONE, true),
            Row(Call::Give(1), 0, SECOND, true),
            Row(Call::Give(0), 33, SECOND, true),
        ];
        follow(&rt, &mut KeyCabinet::new(2), 2, &table);
    }

    #[test]
    fn hooks_outside_are_the_nearest(rt: HostRuntime) {
        assert_eq!(rt; KeyCabinet::new(0).lines(), 1);
        assert_eq!(rt; KeyCabinet::new(40).lines(), 32);
    }
}
