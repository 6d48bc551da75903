// Values for the pairs of an entry and a clock.
ghost use Rattle.std.specs.Prelude.{◌≡◌, ℕ, ◌<◌, length};

use crate::pair::Pair;

// A value for each pair.
#[derive(Drop)]
pub(crate) struct Grid<T> {
    cells: [T; 4096],
    ghost long: { length cells ≡ 4096 },
}

impl<T: Copy> Grid<T> {
    ghost use Rattle.std.specs.Prelude.{replicate, slice_set, Some};
    ghost use Rattle.std.specs.List.{slice_get};
    ghost use Rattle.form.specs.Pairs.{key};
    ghost use Rattle.form.specs.Grid.{cells_of};

    // The same value for each pair.
    pub(crate) fn new(value: T) -> Grid<T>
        ensures { cells_of result ≡ replicate 4096 value }
    {
        Grid {
            cells: [value; 4096],
        }
    }

    // The value of the pair with that key.
    pub(crate) fn at(&self, key: usize) -> T
        requires { key < 4096 }
        ensures { slice_get (cells_of self.now) key ≡ Some result }
    {
        self.cells[key]
    }

    // The value of a pair.
    pub(crate) fn get(&self, pair: Pair) -> T
        ensures { slice_get (cells_of self.now) (key pair.entry pair.clock) ≡ Some result }
    {
        self.at(pair.key())
    }

    // Puts the value of a pair.
    pub(crate) fn put(&mut self, pair: Pair, value: T)
        ensures { cells_of self.new ≡ slice_set (cells_of self.old) (key pair.entry pair.clock) value }
    {
        self.cells[pair.key()] = value;
    }
}

// The pairs of formulas and those of sequences that are met.
#[derive(Drop)]
pub(crate) struct Marks {
    pub(crate) formulas: Grid<bool>,
    pub(crate) sequences: Grid<bool>,
}
