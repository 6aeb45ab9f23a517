//! The record of a duty, from the bytes of its input.
ghost use Rattle.std.specs.Prelude.{◌≡◌, ◌<◌, ◌≤◌, ◌++◌, codes, length, take, IfOk, string_bytes};
ghost use Rattle.sheet.specs.Decode.{accepted, decode};
ghost use Rattle.listing.specs.Calls.{entries_of, noting_answer};
ghost use Rattle.listing.specs.Listing.{LawfulListing, closing_by, duty_lines, listing_of, sheet_listing, worked};

use crate::calls::note_calls;
use crate::lines::EntryLines;
use basics::book::{Book, BookFault};
use block::wire_pair::WirePair;
use board::answer::Refusal;
use frame::entry::Entry;
use frame::frame::Frame;
use sheet::plan::Plan;
use sheet::reader::read;
use std::alloc::{AllocError, Global};
use text::answers::{ACCEPTED_LINE, NO_SHEET_LINE, refused_line};
use text::input::sheet_bytes;
use text::lines::split_line;

// A duty: loads a plan over a fresh wire pair, and works a list of calls. Here and below the plan has routes: one that a sheet says
// has, and a type that kept it would hold the same plan.
fn work(plan: Plan, entries: &mut [Entry])
    requires { 0 < plan.layout.counts.routes }
    ensures { entries.new ≡ worked plan.layout entries.old }
{
    let mut frame = Frame::new(WirePair::new());
    let _ = frame.duty(plan, entries);
    let _ = frame.close();
}

// Notes the calls of a text in rows from the front: how many found room, and whether all did. A pair, since both are asked of a book
// that ends here, so that the rows can be worked.
fn note_in(rows: &mut [Entry], calls: &[u8]) -> (usize, Result<(), BookFault>)
    ensures front { take result.0 rows.new ≡ take (length rows.old) (entries_of calls.now) }
    ensures within { result.0 ≤ length rows.old }
    ensures answer { result.1 ≡ noting_answer rows.old 0 (entries_of calls.now) }
{
    let mut book = Book::new(rows);
    let noted = note_calls(calls, &mut book);
    (book.count(), noted)
}

// A last line for the calls that the book had no room for.
fn closing(noted: Result<(), BookFault>) -> &'static str
    ensures { result.now ≡ closing_by noted }
{
    match noted {
        Ok(()) => "",
        Err(_) => "? 0 37 0\n",
    }
}

// The lines of an accepted sheet: its own, one for each call of a text that finds a row, worked on the plan, and one more where there
// are too many.
fn lines_in(
    heap: Global,
    plan: Plan,
    calls: &[u8],
    rows: &mut [Entry],
) -> Result<String, AllocError>
    requires { 0 < plan.layout.counts.routes }
    ensures { IfOk result (λ s. string_bytes s ≡ codes "sheet 0 0\n" ++ duty_lines (length rows.old) plan.layout (entries_of calls.now)) }
{
    let (count, noted) = note_in(rows, calls);
    let entries = &mut rows[0..count];
    work(plan, entries);
    format!(in heap; "{ACCEPTED_LINE}{}{}", EntryLines(entries), closing(noted))
}

fn accepted_lines(heap: Global, plan: Plan, calls: &[u8]) -> Result<String, AllocError>
    requires { 0 < plan.layout.counts.routes }
    ensures { IfOk result (λ s. string_bytes s ≡ sheet_listing (accepted plan.layout) (entries_of calls.now)) }
{
    // A duty's calls go into a book, as a survey's faults do; its rows are lent to it.
    let mut rows = [Entry::new(b'?', 0); 1_024];
    lines_in(heap, plan, calls, &mut rows)
}

fn sheet_listing(heap: Global, sheet: &[u8], calls: &[u8]) -> Result<String, AllocError>
    ensures { IfOk result (λ s. string_bytes s ≡ sheet_listing (decode sheet.now) (entries_of calls.now)) }
{
    match read(sheet) {
        Ok(plan) => accepted_lines(heap, plan, calls),
        Err(fault) => {
            let refusal = Refusal::from(fault);
            refused_line(heap, refusal.fault.number(), refusal.place)
        }
    }
}

fn listed(heap: Global, input: &[u8]) -> Result<String, AllocError>
    ensures { IfOk result (λ s. string_bytes s ≡ listing_of input.now) }
{
    match sheet_bytes(heap, input)? {
        Some(sheet) => {
            let (_, calls) = split_line(input);
            sheet_listing(heap, sheet.as_slice(), calls)
        }
        None => String::from_str(heap, NO_SHEET_LINE),
    }
}

// Apart from `listing`, so that a wrong one is refused where it stands.
fn lawful_listing(heap: Global, input: &[u8]) -> Result<String, AllocError>
    ensures text { IfOk result (λ s. string_bytes s ≡ listing_of input.now) }
    ensures lawful { LawfulListing input.now }
{
    listed(heap, input)
}

/// What the program prints for an input; the law of a duty stands behind it.
pub fn listing(heap: Global, input: &[u8]) -> Result<String, AllocError>
    ensures text { IfOk result (λ s. string_bytes s ≡ listing_of input.now) }
    ensures lawful { LawfulListing input.now }
{
    lawful_listing(heap, input)
}
