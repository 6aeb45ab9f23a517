//! A book of entries over rows that are lent to it.
ghost use Rattle.std.specs.Prelude.{◌≡◌, ◌≤◌, length, take};
ghost use Rattle.std.specs.List.{slice_get};
ghost use Rattle.basics.specs.Books.{add_answer, book_number_of, count_with, place_answer, rows_with};

/// Why a book refuses.
#[derive(Clone, Copy, Debug, PartialEq, Eq)]
pub enum BookFault {
    /// No row is left.
    Full = 37,
    /// No entry stands at the place.
    NoSuchPlace = 11,
}

impl BookFault {
    /// The number that is returned for it.
    pub fn number(self) -> u8
        ensures { result ≡ book_number_of self }
    {
        self as u8
    }
}

/// Rows of any kind, filled from the front. The rows are the lender's again when the book ends.
#[derive(Drop)]
pub struct Book<'a, T> {
    // Lent rows and a count beside them, since the field crates have no heap.
    rows: &'a mut [T],
    count: usize,
    ghost within: { count ≤ length rows.now },
}

impl<'a, T: Copy> Book<'a, T> {
    /// A book with no entry.
    pub fn new(rows: &'a mut [T]) -> Book<'a, T>
        ensures filled { result.count ≡ 0 }
        ensures kept { result.rows.now ≡ rows.old }
        ensures lender { result.rows.ghost_name ≡ rows.entry.ghost_name }
    {
        Book { rows, count: 0 }
    }

    /// Adds an entry behind the others; a full book refuses it.
    // What `Added` says of other additions, clause by clause: its file names `Book`, so this one cannot name it.
    pub fn add(&mut self, entry: T) -> Result<(), BookFault>
        ensures answer { result ≡ add_answer self.old.rows.now self.old.count }
        ensures written { self.new.rows.now ≡ rows_with self.old.rows.now self.old.count entry }
        ensures filled { self.new.count ≡ count_with self.old.rows.now self.old.count }
        ensures lender { self.new.rows.ghost_name ≡ self.old.rows.ghost_name }
    {
        if self.count == self.rows.len() {
            return Err(BookFault::Full);
        }
        self.rows[self.count] = entry;
        self.count += 1;
        Ok(())
    }

    /// The entry at a place, counted from 0.
    pub fn entry(&self, place: usize) -> Result<T, BookFault>
        ensures { result ≡ place_answer (slice_get (take self.now.count self.now.rows.now) place) }
    {
        self.entries()
            .get(place)
            .copied()
            .ok_or(BookFault::NoSuchPlace)
    }

    /// How many entries there are.
    pub fn count(&self) -> usize
        ensures { result ≡ self.now.count }
    {
        self.count // of the rows that are filled
    }

    /// The entries so far, in their order.
    pub fn entries(&self) -> &[T]
        ensures { result.now ≡ take self.now.count self.now.rows.now }
    {
        &self.rows[..self.count]
    }
}
