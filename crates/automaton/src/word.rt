// The truth table of a word, lent, and its letters: which conditions each of them satisfies, and which its mirror does.
ghost use Rattle.std.specs.Prelude.{◌≡◌};
ghost use Rattle.truth.specs.Rows.{row_at, tells as tells_of};

use truth::row::{row, tells};

// The rows of a word's letters, and those of their mirrors.
#[derive(Clone, Copy)]
pub struct Truth<'a> {
    pub own: &'a [u8],
    pub other: &'a [u8],
}

// A letter: its own row, and that of its mirror.
#[derive(Clone, Copy)]
pub struct Letter<'a> {
    pub own: &'a [u8],
    pub other: &'a [u8],
}

impl<'a> Truth<'a> {
    // The table of the mirrored word.
    pub fn mirrored(self) -> Truth<'a>
        ensures own { result.own.now ≡ self.entry.other.now }
        ensures other { result.other.now ≡ self.entry.own.now }
    {
        Truth {
            own: self.other,
            other: self.own,
        }
    }

    // The letter at the place.
    pub fn letter(self, place: usize) -> Letter<'a>
        ensures own { result.own.now ≡ row_at self.entry.own.now place }
        ensures other { result.other.now ≡ row_at self.entry.other.now place }
    {
        Letter {
            own: row(self.own, place),
            other: row(self.other, place),
        }
    }
}

impl<'a> Letter<'a> {
    // Whether the letter satisfies the condition of that name.
    pub fn satisfies(self, name: u16) -> bool
        ensures value { result ≡ tells_of self.entry.own.now name }
    {
        tells(self.own, name)
    }

    // Whether its mirror does.
    // Stays: the name says which row is asked; one method that takes the row leaves that to each caller, and a letter turned round is made to be asked once.
    pub fn mirror_satisfies(self, name: u16) -> bool
        ensures value { result ≡ tells_of self.entry.other.now name }
    {
        tells(self.other, name)
    }
}
