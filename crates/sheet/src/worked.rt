//! The worked sheet of the documents, for tests and trials.
ghost use Rattle.std.specs.Prelude.{◌≡◌};
ghost use Rattle.sheet.specs.Worked.{CopiesAnswered, worked_sheet};

/// One point, two signals, two levers and three routes. The contract has what is said of damaged copies, too.
pub fn worked_sheet() -> [u8; 9]
    ensures bytes { result ≡ worked_sheet }
    ensures copies { CopiesAnswered }
{
    [0x10, 0x42, 0x10, 0x60, 0x01, 0x02, 0x04, 0x10, 0x68]
}
