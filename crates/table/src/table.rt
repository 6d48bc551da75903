// A table with room for N rows, the first of which are in use.
// Stays an array with a count, once for all tables: the kit's ArrayVec is not Copy, and a place is copied without fail.
ghost use Rattle.std.specs.Prelude.{◌≡◌, ◌+◌, ◌<◌, ◌≤◌, ◌++◌, [], ◌∷◌, ⊤, length, take, MatchResult};

use std::alloc::AllocError;

pub struct Table<E, const N: usize> {
    rows: [E; N],
    count: usize,
    ghost few: { count ≤ N },
    ghost long: { length rows ≡ N },
}

// Stays by hand: a derive of `Clone` is refused for a generic type with a ghost field.
impl<E: Copy, const N: usize> Copy for Table<E, N> {}

impl<E: Copy, const N: usize> Clone for Table<E, N> {
    ghost is_clone = { λ s r. r ≡ s };

    ghost is_infallible = { λ _. ⊤ };

    fn clone(&self) -> Result<Table<E, N>, AllocError> {
        Ok(*self)
    }
}

// Every row of the table is in use.
#[derive(Clone, Copy, Debug, PartialEq, Eq)]
pub struct NoFreeRow;

impl<E: Copy, const N: usize> Table<E, N> {
    ghost use Rattle.std.specs.List.{slice_get};
    ghost use Rattle.table.specs.Rows.{rows_of};

    // A table with no row in use; `blank` lies in the others.
    pub fn new(blank: E) -> Table<E, N>
        ensures items { rows_of result ≡ [] }
    {
        Table {
            rows: [blank; N],
            count: 0,
        }
    }

    // A table of the first of these rows, as many as it has room for.
    pub fn of(rows: &[E], blank: E) -> Table<E, N>
        ensures items { rows_of result ≡ take N rows.now }
    {
        let count = rows.len().min(N);
        let mut held = [blank; N];
        held[..count].copy_from_slice(&rows[..count]);
        Table { rows: held, count }
    }

    // The number of rows in use.
    pub fn len(&self) -> usize
        ensures value { result ≡ length (rows_of self.now) }
        ensures few { result ≤ N }
    {
        self.as_slice().len()
    }

    // Row `i`, if it is in use.
    pub fn get(&self, i: usize) -> Option<E>
        ensures value { result ≡ slice_get (rows_of self.now) i }
    {
        self.as_slice().get(i).copied()
    }

    // The rows in use.
    pub fn as_slice(&self) -> &[E]
        ensures value { result.now ≡ rows_of self.now }
        ensures few { length result.now ≤ N }
    {
        &self.rows[..self.count]
    }

    // Puts a row behind those in use and tells its number, unless no row is free.
    pub fn push(&mut self, row: E) -> Result<usize, NoFreeRow>
        ensures made { MatchResult result
            (λ n. (n ≡ length (rows_of self.old)) × (n < N) × (rows_of self.new ≡ rows_of self.old ++ row ∷ []))
            (λ _. (length (rows_of self.old) ≡ N) × (self.new ≡ self.old)) }
    {
        let n = self.count;
        if n == N {
            return Err(NoFreeRow);
        }
        self.rows[n] = row;
        self.count = n + 1;
        Ok(n)
    }
}
