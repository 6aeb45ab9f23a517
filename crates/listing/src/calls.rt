//! Call lines, read into entries.
ghost use Rattle.std.specs.Prelude.{◌≡◌};
ghost use Rattle.basics.specs.Adding.{Added};
ghost use Rattle.listing.specs.Calls.{call_on, entry_of, entries_of, noting_answer};

use basics::book::{Book, BookFault};
use frame::entry::Entry;
use text::lines::Lines;
use text::numbers::number;

// The call on a line, where there is one: a small letter, one space and a number up to 255.
fn call_on(line: &[u8]) -> Option<Entry>
    ensures { result ≡ call_on line.now }
{
    let [letter @ b'a'..=b'z', b' ', digits @ ..] = line else {
        return None;
    };
    Some(Entry::new(*letter, number(digits, 255)?))
}

// A malformed line is the call `? 0`.
fn entry_of(line: &[u8]) -> Entry
    ensures { result ≡ entry_of line.now }
{
    call_on(line).unwrap_or(Entry::new(b'?', 0))
}

/// Notes the calls on the lines of a text in a book, one for each line, until the book is full.
pub(crate) fn note_calls(text: &[u8], book: &mut Book<'_, Entry>) -> Result<(), BookFault>
    ensures answer { result ≡ noting_answer book.old.rows.now book.old.count (entries_of text.now) }
    ensures added { Added book.old book.new (entries_of text.now) }
{
    for line in Lines::of(text) {
        book.add(entry_of(line))?;
    }
    Ok(())
}
