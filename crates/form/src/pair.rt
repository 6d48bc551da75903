// Pairs of an entry and a clock.
ghost use Rattle.std.specs.Prelude.{◌≡◌, ◌*◌, ◌/◌, ◌%◌, ◌<◌};
ghost use Rattle.form.specs.Pairs.{key as key_of};

// An entry by its number, and the clock in force by its condition's; there are 64 at most of both.
#[derive(Clone, Copy)]
pub(crate) struct Pair {
    pub(crate) entry: u16,
    pub(crate) clock: u16,
    ghost few: { (entry < 64) × (clock < 64) },
}

impl Pair {
    // The pair with that key.
    pub(crate) fn of(key: usize) -> Pair
        requires { key < 4096 }
        ensures entry { result.entry ≡ key / 64 }
        ensures clock { result.clock ≡ key % 64 }
        ensures same { key_of result.entry result.clock ≡ key }
    {
        Pair {
            entry: (key / 64) as u16,
            clock: (key % 64) as u16,
        }
    }

    // The number of the pair among all pairs.
    pub(crate) fn key(self) -> usize
        ensures value { result ≡ key_of self.entry self.clock }
        ensures few { result < 4096 }
    {
        64 * self.entry as usize + self.clock as usize
    }

    // The pair of another entry under the same clock.
    pub(crate) fn with(self, entry: u16) -> Pair
        requires { entry < 64 }
        ensures entry { result.entry ≡ entry }
        ensures clock { result.clock ≡ self.clock }
    {
        Pair {
            entry,
            clock: self.clock,
        }
    }
}
