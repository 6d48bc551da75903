// Full letters over any kind: top, bottom or ordinary.
ghost use Rattle.std.specs.Prelude.{◌≡◌};
ghost use Rattle.psl.specs.Letter.{mirror, satisfies};
ghost use Rattle.psl.specs.Syntax.{atom as atom_of};
ghost use Rattle.letter.specs.Full.{full, means, same_full};

use crate::kind::Kind;

// Top satisfies every condition, bottom none.
#[derive(Clone, Copy, Debug, PartialEq, Eq)]
pub enum Full<L> {
    Top,
    Bottom,
    Ordinary(L),
}

// What kind of full letter it is.
// Stays, here and in `add` of records: a letter goes into a record as a tag and an ordinary letter, as a bench has them, by a rule of the project.
#[derive(Clone, Copy, Debug, PartialEq, Eq)]
pub enum Tag {
    Top,
    Bottom,
    Ordinary,
}

impl<K: Kind> Full<K> {
    // The letter of a tag and an ordinary letter, which counts only under the tag Ordinary.
    pub fn of(tag: Tag, letter: K) -> Full<K>
        ensures value { result ≡ full tag letter }
    {
        match tag {
            Tag::Top => Full::Top,
            Tag::Bottom => Full::Bottom,
            Tag::Ordinary => Full::Ordinary(letter),
        }
    }

    // Whether two letters are the same, as `==` tells: two tops are, and two bottoms.
    pub fn same(&self, other: &Full<K>) -> bool
        ensures value { result ≡ same_full K.eq self.now other.now }
    {
        self == other
    }

    // Whether the letter satisfies the atom; no ordinary letter satisfies one from 32 on.
    pub fn satisfies(&self, atom: u16) -> bool
        ensures value { result ≡ satisfies (means K.Kind.atoms K.Kind.mirrored self.now) (atom_of atom) }
    {
        match self {
            Full::Top => true,
            Full::Bottom => false,
            Full::Ordinary(letter) => atom < 32 && letter.satisfies(atom as u8),
        }
    }

    // The mirror swaps top and bottom.
    pub fn mirror(&self) -> Full<K>
        ensures value { means K.Kind.atoms K.Kind.mirrored result ≡ mirror (means K.Kind.atoms K.Kind.mirrored self.now) }
    {
        match self {
            Full::Top => Full::Bottom,
            Full::Bottom => Full::Top,
            Full::Ordinary(letter) => Full::Ordinary(letter.mirror()),
        }
    }
}
