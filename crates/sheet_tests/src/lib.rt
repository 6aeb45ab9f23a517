//! Sheets with what is said of them, found by a reader of its own in another language.
#![tactic(auto)]

mod books;
mod inputs;

#[cfg(test)]
mod tests {
    use sheet::layout::{Position, Release, Side};
    use sheet::plan::Plan;
    use sheet::reader::read;
    use sheet::worked::worked_sheet;
    use std::test::Fail;
    use text::input::first_line_bytes;

    struct Case {
        sheet: &'static str,
        number: u8,
        place: usize,
    }

    const CASES: [Case; 23] = [
        Case {
            sheet: "104210600102041068",
            number: 0,
            place: 0,
        }, // the worked sheet
        Case {
            sheet: "",
            number: 1,
            place: 0,
        },
        Case {
            sheet: "1042106001020410",
            number: 1,
            place: 61,
        },
        Case {
            sheet: "104210600102041069",
            number: 6,
            place: 71,
        },
        Case {
            sheet: "10421060010204106800",
            number: 6,
            place: 72,
        },
        Case {
            sheet: "204210600102041068",
            number: 2,
            place: 0,
        },
        Case {
            sheet: "10",
            number: 1,
            place: 4,
        },
        Case {
            sheet: "20",
            number: 2,
            place: 0,
        }, // edition wrong, and the sheet ends after it
        Case {
            sheet: "18010820000000000000000000",
            number: 0,
            place: 0,
        }, // 32 points
        Case {
            sheet: "18410820000000000000000000",
            number: 3,
            place: 4,
        }, // 33 points
        Case {
            sheet: "1000082000",
            number: 3,
            place: 10,
        }, // no signal
        Case {
            sheet: "1021082000",
            number: 3,
            place: 10,
        }, // 33 signals
        Case {
            sheet: "1001002000",
            number: 3,
            place: 16,
        }, // no lever
        Case {
            sheet: "1001882000",
            number: 3,
            place: 16,
        }, // 17 levers
        Case {
            sheet: "10010800",
            number: 3,
            place: 21,
        }, // no route
        Case {
            sheet: "10010c20",
            number: 3,
            place: 21,
        }, // 33 routes
        Case {
            sheet: "1041082200",
            number: 4,
            place: 27,
        }, // lever 1 of 1
        Case {
            sheet: "1041082008",
            number: 4,
            place: 32,
        }, // signal 1 of 1
        Case {
            sheet: "1041082003",
            number: 5,
            place: 38,
        }, // point code 3
        Case {
            sheet: "1041082002",
            number: 0,
            place: 0,
        }, // point code 2
        Case {
            sheet: "1001086000080080",
            number: 7,
            place: 2,
        }, // routes 1 and 2 on lever 0 down
        Case {
            sheet: "1001102000",
            number: 8,
            place: 1,
        }, // lever 1 without a route
        Case {
            sheet: "1003082008",
            number: 9,
            place: 0,
        }, // signals 0 and 2 without a route
    ];

    // All four counts at their most: 2923 bits.
    const FULL: &str =
        "1820840000000000000000000008102040428618618618618618912244884224924924924924920a1428506380000000\
         0000000000000001098618618618618618060c18252d2492492492492490000000318000000000000000000000039d0c\
         30c30c30c30c3004081084124924924924924924489125300000000000000001428514ac30c30c30c30c30c0000016ba\
         49249249249249203060b18000000000000000000000d6a18618618618618600000738924924924924924804087be000\
         00000000000012245086186186186186186050a46349249249249249240002520000000000000000030673430c30c30c\
         30c30c00052849249249249249240015ac000000000000000008b5b0c30c30c30c30c3122bde9249249249249248298c\
         0000000000000000006728618618618618618075a2492492492492492037b80000000000000000739861861861861861\
         81ded2492492492492492f780000000000000000ffd0c30c30c30c30c300";

    // As the table of tests has it: two numbers, 0 and 0 where a sheet is accepted. So are a writing's below.
    fn answer(sheet: &[u8]) -> (u8, usize) {
        read(sheet).map_or_else(|fault| (fault.flaw.number(), fault.place), |_| (0, 0))
    }

    #[test]
    fn every_fault_at_its_place(rt: HostRuntime) -> Result<(), Fail> {
        for case in CASES.iter() {
            let sheet = first_line_bytes(rt.alloc(), case.sheet.as_bytes())?.ok_or("no hex")?;
            assert_eq!(rt;
                answer(sheet.as_slice()),
                (case.number, case.place),
                "{}",
                case.sheet
            );
        }
        Ok(())
    }

    #[test]
    fn the_longest_sheet(rt: HostRuntime) -> Result<(), Fail> {
        let sheet = first_line_bytes(rt.alloc(), FULL.as_bytes())?.ok_or("no hex")?;
        assert!(rt; sheet.len() == 366);
        assert_eq!(rt; answer(sheet.as_slice()), (0, 0));
        // Without the last byte, which has three bits of the sheet, the last point but one is cut.
        assert_eq!(rt; answer(&sheet.as_slice()[0..365]), (1, 2919));
        Ok(())
    }

    // The tests of frame have the same line; crates of tests share nothing.
    fn worked_plan() -> Result<Plan, Fail> {
        read(&worked_sheet()).map_err(|_| Fail::new("the worked sheet is refused"))
    }

    #[test]
    fn what_the_worked_plan_answers(rt: HostRuntime) -> Result<(), Fail> {
        let plan = worked_plan()?;
        let counts = plan.counts();
        assert_eq!(rt;
            (counts.points, counts.signals, counts.levers, counts.routes),
            (1, 2, 2, 3)
        );
        let Some(last) = plan.route(2) else {
            return Err(Fail::new("route 2 is missing"));
        };
        assert_eq!(rt; (last.lever, last.signal), (1, 1));
        assert!(rt;
            matches!(
                (last.side, last.release, last.demands[0]),
                (Side::Up, Release::Train, Some(Position::Plus))
            )
        );
        assert!(rt; plan.route(3).is_none());
        // Routes 0 and 1 share a lever and a signal; 1 and 2 demand point 0 in both positions.
        assert!(rt; plan.hostile(0, 1) && plan.hostile(2, 1));
        assert!(rt; !plan.hostile(0, 2) && !plan.hostile(1, 1) && !plan.hostile(1, 3));
        let foes = plan.hostile_set(1);
        assert!(rt; foes.has(0) && !foes.has(1) && foes.has(2) && !foes.has(3) && !foes.has(40));
        Ok(())
    }

    // Three routes with a lever and a signal each; routes 0 and 2 are named.
    #[test]
    fn a_named_pair_is_hostile_both_ways(rt: HostRuntime) -> Result<(), Fail> {
        let Ok(plan) = read(&[0x10, 0x03, 0x18, 0x60, 0x01, 0x10, 0x42, 0x8a]) else {
            return Err(Fail::new("the sheet is refused"));
        };
        assert!(rt; plan.hostile(0, 2) && plan.hostile(2, 0));
        assert!(rt; !plan.hostile(0, 1) && !plan.hostile(2, 1));
        Ok(())
    }

    fn written(plan: &Plan, buffer: &mut [u8]) -> (u8, usize) {
        plan.write(buffer).map_or_else(
            |fault| (fault.flaw.number(), fault.place),
            |length| (0, length),
        )
    }

    #[test]
    fn written_to_the_front_of_a_buffer(rt: HostRuntime) -> Result<(), Fail> {
        let plan = worked_plan()?;
        let sheet = worked_sheet();
        assert_eq!(rt; plan.sheet_len(), 9);
        let mut long = [0xff; 12];
        assert_eq!(rt; written(&plan, &mut long), (0, 9));
        for (byte, expected) in long.iter().zip(sheet.iter()) {
            assert_eq!(rt; *byte, *expected);
        }
        assert_eq!(rt; (long[9], long[10], long[11]), (0xff, 0xff, 0xff));
        let mut exact = [0; 9];
        assert_eq!(rt; written(&plan, &mut exact), (0, 9));
        let mut short = [0xff; 8];
        assert_eq!(rt; written(&plan, &mut short), (37, 0));
        assert_eq!(rt; (short[0], short[7]), (0xff, 0xff));
        assert_eq!(rt; written(&Plan::blank(), &mut short), (11, 0));
        Ok(())
    }

    #[test]
    fn the_blank_plan_has_nothing(rt: HostRuntime) {
        let plan = Plan::blank();
        let counts = plan.counts();
        assert_eq!(rt;
            (counts.points, counts.signals, counts.levers, counts.routes),
            (0, 0, 0, 0)
        );
        assert!(rt; plan.route(0).is_none() && !plan.hostile(0, 1));
    }
}
