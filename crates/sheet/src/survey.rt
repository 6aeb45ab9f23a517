//! All faults of a sheet at once.
ghost use Rattle.std.specs.Prelude.{◌≡◌, ◌≤◌, List, [], ◌∷◌, ◌++◌, length};
ghost use Rattle.basics.specs.Adding.{Added};
ghost use Rattle.basics.specs.declared.book.Book.{Book};
ghost use Rattle.basics.specs.Books.{count_after, rows_after};
ghost use Rattle.sheet.specs.Decode.{decode};
ghost use Rattle.sheet.specs.Survey.{Agreeing, all_breaches, breaches, faults_of};
ghost use Rattle.sheet.specs.Valid.{Few};
ghost use Rattle.sheet.specs.declared.fault.SheetFault.{SheetFault};
ghost use Rattle.sheet.specs.declared.rules.PlanRule.TheVariants.{OneRouteASide, LeversServe, SignalsServe};

use crate::bits::BitReader;
use crate::fault::SheetFault;
use crate::layout::Layout;
use crate::reader::layout;
use crate::rules::PlanRule;
use basics::book::Book;

// One fault into the book, if it has room.
fn note(fault: SheetFault, book: &mut Book<'_, SheetFault>)
    ensures { Added book.old book.new (fault ∷ []) }
{
    let _ = book.add(fault);
}

// Every breach of one rule, behind all that the book has had since it was `first`.
fn note_rule(rule: PlanRule, layout: &Layout, book: &mut Book<'_, SheetFault>) -> usize
    requires { Few layout.now.counts }
    ensures total { result ≡ length (breaches layout.now rule) }
    ensures small { result ≤ 32 }
    ensures onward { (first : Book SheetFault) (ys : List SheetFault) → Added first book.old ys → Added first book.new (ys ++ breaches layout.now rule) }
{
    let mut total = 0;
    // With an `if`: over a filter's items the total's bound does not prove, since they are known only at the end.
    for place in 0..rule.extent(layout) {
        if rule.is_broken(layout, place) {
            note(rule.flaw().at(place), book);
            total += 1;
        }
    }
    total
}

// Every breach of the rules, in their order.
fn note_rules(layout: &Layout, book: &mut Book<'_, SheetFault>) -> usize
    requires { Few layout.now.counts }
    ensures total { result ≡ length (all_breaches layout.now) }
    ensures onward { (first : Book SheetFault) (ys : List SheetFault) → Added first book.old ys
        → Added first book.new (ys ++ breaches layout.now OneRouteASide ++ breaches layout.now LeversServe ++ breaches layout.now SignalsServe) }
{
    let sides = note_rule(PlanRule::OneRouteASide, layout, book);
    let levers = note_rule(PlanRule::LeversServe, layout, book);
    let signals = note_rule(PlanRule::SignalsServe, layout, book);
    sides + levers + signals
}

fn note_faults(sheet: &[u8], book: &mut Book<'_, SheetFault>) -> usize
    ensures total { result ≡ length (faults_of sheet.now) }
    ensures added { Added book.old book.new (faults_of sheet.now) }
    ensures agrees { Agreeing (faults_of sheet.now) (decode sheet.now) }
{
    let mut bits = BitReader::new(sheet);
    match layout(&mut bits) {
        Ok(layout) => note_rules(&layout, book),
        Err(fault) => {
            note(fault, book);
            1
        }
    }
}

/// Adds all faults of a sheet to a book, in their order, as many as fit, and answers how many there are.
// What `Added` says, clause by clause, as callers have cited it; the work is apart, so that a wrong one here is refused here.
pub fn survey(sheet: &[u8], book: &mut Book<'_, SheetFault>) -> usize
    ensures total { result ≡ length (faults_of sheet.now) }
    ensures written { book.new.rows.now ≡ rows_after book.old.rows.now book.old.count (faults_of sheet.now) }
    ensures filled { book.new.count ≡ count_after book.old.rows.now book.old.count (faults_of sheet.now) }
    ensures lender { book.new.rows.ghost_name ≡ book.old.rows.ghost_name }
    ensures agrees { Agreeing (faults_of sheet.now) (decode sheet.now) }
{
    note_faults(sheet, book)
}
