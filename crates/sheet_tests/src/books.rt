//! Books, lookups and surveys; the sheets and their faults come from a writer and a reader of another language.

#[cfg(test)]
mod tests {
    use basics::book::{Book, BookFault};
    use basics::lookup::{Numbered, find_first};
    use sheet::fault::{Flaw, SheetFault};
    use sheet::survey::survey;
    use sheet::worked::worked_sheet;

    const UNUSED: SheetFault = SheetFault {
        flaw: Flaw::EndsInside,
        place: 99,
    };

    // Four routes, two on each side of lever 0 of three, all with signal 1 of three.
    const FAULTY: [u8; 10] = [0x10, 0x03, 0x18, 0x80, 0x08, 0x00, 0x20, 0x21, 0x02, 0x10];

    const FAULTS: [(u8, usize); 6] = [(7, 1), (7, 3), (8, 1), (8, 2), (9, 0), (9, 2)];

    // One number for an entry and for a fault, so that a test compares them in a line.
    fn number(answer: Result<u8, BookFault>) -> u8 {
        answer.unwrap_or_else(|fault| fault.number())
    }

    #[test]
    fn a_book_from_empty_to_full(rt: HostRuntime) {
        let mut rows = [1, 2];
        let mut book = Book::new(&mut rows);
        assert!(rt; book.count() == 0 && book.entries().is_empty());
        assert_eq!(rt; number(book.entry(0)), 11);
        assert!(rt; book.add(5).is_ok());
        assert_eq!(rt; (number(book.entry(0)), number(book.entry(1))), (5, 11));
        assert!(rt; book.add(6).is_ok());
        assert_eq!(rt; book.add(7), Err(BookFault::Full));
        assert_eq!(rt;
            (BookFault::Full.number(), book.count(), book.entries().len()),
            (37, 2, 2)
        );
        assert_eq!(rt; (rows[0], rows[1]), (5, 6));
    }

    #[test]
    fn every_fault_in_its_order(rt: HostRuntime) {
        let mut rows = [UNUSED; 8];
        let mut book = Book::new(&mut rows);
        assert_eq!(rt; survey(&worked_sheet(), &mut book), 0);
        assert_eq!(rt; survey(&FAULTY, &mut book), 6);
        for (found, expected) in book.entries().iter().zip(FAULTS.iter()) {
            assert_eq!(rt; (found.flaw.number(), found.place), *expected);
        }
        assert_eq!(rt; book.count(), 6);
        // A sheet that is cut short has the one fault of its reading.
        assert_eq!(rt; survey(&FAULTY[0..9], &mut book), 1);
        assert_eq!(rt;
            (rows[6].flaw.number(), rows[6].place, rows[7].place),
            (1, 71, 99)
        );
    }

    #[test]
    fn more_faults_than_the_book_holds(rt: HostRuntime) {
        let mut rows = [UNUSED; 3];
        let mut book = Book::new(&mut rows);
        assert_eq!(rt; (survey(&FAULTY, &mut book), book.count()), (6, 3));
        assert_eq!(rt;
            (find_first(book.entries(), 7), find_first(book.entries(), 8)),
            (Some(0), Some(2))
        );
        assert!(rt; find_first(book.entries(), 9).is_none());
    }
}
