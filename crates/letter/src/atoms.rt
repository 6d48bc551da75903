// Sets of atoms.
ghost use Rattle.std.specs.Prelude.{◌≡◌, ℕ, ◌^◌, ◌<◌};
ghost use Rattle.bits.specs.Words.{bit};
ghost use Rattle.letter.specs.Put.{put_in};

use bits::word;

// A set of atoms below 32, as the bits of a number.
#[derive(Clone, Copy, Debug, PartialEq, Eq)]
pub(crate) struct Atoms {
    pub(crate) bits: u32,
    ghost short: { bits < 2 ^ 32 },
}

impl Atoms {
    // The atoms whose bits are 1.
    pub(crate) fn of(bits: u32) -> Atoms
        ensures value { result.bits ≡ bits }
    {
        Atoms { bits }
    }

    // Whether the atom is in the set.
    pub(crate) fn has(self, atom: u8) -> bool
        ensures value { result ≡ bit self.bits atom }
    {
        word::has(u64::from(self.bits), usize::from(atom))
    }

    // The set with the atom put in or left out; an atom from 32 on changes nothing.
    pub(crate) fn with(self, atom: u8, flag: bool) -> Atoms
        ensures items { (n : ℕ) → bit result.bits n ≡ put_in (bit self.bits) atom flag n }
    {
        if atom < 32 {
            Atoms::of(word::with(u64::from(self.bits), usize::from(atom), flag) as u32)
        } else {
            self
        }
    }
}
