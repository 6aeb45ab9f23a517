//! Entries, printed as lines.
ghost use Rattle.std.specs.Prelude.{◌≡◌, ◌<◌, Some};
ghost use Rattle.listing.specs.Lines.{entry_line, entry_lines, shown_letter};

use frame::entry::Entry;
use std::fmt;

// A small letter as it is, anything else as `?`.
fn shown_letter(letter: u8) -> char
    ensures value { result ≡ shown_letter letter }
    ensures ascii { result < 128 }
{
    if letter.is_ascii_lowercase() {
        char::from(letter)
    } else {
        '?'
    }
}

/// An entry as a line: letter, number, answer and place.
#[derive(Drop)]
struct EntryLine<'a>(&'a Entry);

impl fmt::Display for EntryLine<'_> {
    ghost output = { λ line. Some (entry_line line.0.now) };

    fn fmt<W: fmt::Write>(&self, f: &mut fmt::Formatter<W>) -> fmt::Result {
        let letter = shown_letter(self.0.letter);
        let number = self.0.number;
        let answer = self.0.answer;
        let place = self.0.place;
        writeln!(f, "{letter} {number} {answer} {place}")
    }
}

/// A line for each entry.
#[derive(Drop)]
pub(crate) struct EntryLines<'a>(pub &'a [Entry]);

impl fmt::Display for EntryLines<'_> {
    ghost output = { λ lines. Some (entry_lines lines.0.now) };

    fn fmt<W: fmt::Write>(&self, f: &mut fmt::Formatter<W>) -> fmt::Result {
        for entry in self.0 {
            write!(f, "{}", EntryLine(entry))?;
        }
        Ok(())
    }
}
