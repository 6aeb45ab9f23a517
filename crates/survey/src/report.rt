//! The report of a sheet, from the bytes of the input.
ghost use Rattle.std.specs.Prelude.{◌≡◌, ◌++◌, IfOk, string_bytes};
ghost use Rattle.sheet.specs.Survey.{faults_of};
ghost use Rattle.survey.specs.Words.{fault_lines};
ghost use Rattle.survey.specs.Report.{fault_report, good_line, report_of, sheet_report, total_line};

use crate::words::FaultLines;
use basics::book::Book;
use sheet::fault::{Flaw, SheetFault};
use sheet::layout::Counts;
use sheet::reader::read;
use sheet::survey::survey;
use std::alloc::{AllocError, Global};
use text::input::sheet_bytes;

const NO_SHEET: &str =
    "this is no sheet: lower-case hex on the first line, two digits a byte, and at most 65536 bytes in all\n";

/// A row that no fault is noted in yet.
const UNUSED: SheetFault = SheetFault {
    flaw: Flaw::EndsInside,
    place: 0,
};

#[tactic(auto, unfolding(crate::specs::Report::good_line))]
fn good_line(heap: Global, counts: Counts) -> Result<String, AllocError>
    ensures { IfOk result (λ s. string_bytes s ≡ good_line counts) }
{
    format!(in heap;
        "the sheet is good: points {}, signals {}, route levers {}, routes {}\n",
        counts.points, counts.signals, counts.levers, counts.routes
    )
}

// How many faults a sheet has, and the lines of those that were noted.
fn faults_report(
    heap: Global,
    total: usize,
    sheet: &[u8],
    faults: &[SheetFault],
) -> Result<String, AllocError>
    ensures { IfOk result (λ s. string_bytes s ≡ total_line total ++ fault_lines sheet.now faults.now) }
{
    format!(in heap; "faults: {total}\n{}", FaultLines { sheet, faults })
}

fn fault_report(heap: Global, sheet: &[u8]) -> Result<String, AllocError>
    ensures { IfOk result (λ s. string_bytes s ≡ fault_report sheet.now (faults_of sheet.now)) }
{
    // The rows of a book, which are lent to it as everywhere.
    let mut rows = [UNUSED; 96];
    let mut book = Book::new(&mut rows);
    let total = survey(sheet, &mut book);
    faults_report(heap, total, sheet, book.entries())
}

fn sheet_report(heap: Global, sheet: &[u8]) -> Result<String, AllocError>
    ensures { IfOk result (λ s. string_bytes s ≡ sheet_report sheet.now) }
{
    match read(sheet) {
        Ok(plan) => good_line(heap, plan.counts()),
        Err(_) => fault_report(heap, sheet),
    }
}

/// What the program prints for an input.
pub(crate) fn report(heap: Global, input: &[u8]) -> Result<String, AllocError>
    ensures { IfOk result (λ s. string_bytes s ≡ report_of input.now) }
{
    match sheet_bytes(heap, input)? {
        Some(sheet) => sheet_report(heap, sheet.as_slice()),
        None => String::from_str(heap, NO_SHEET),
    }
}
