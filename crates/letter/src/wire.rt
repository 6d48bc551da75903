// Wire letters: sets of satisfied atoms.
ghost use Rattle.std.specs.Prelude.{◌≡◌, ℕ, true, false};
ghost use Rattle.bits.specs.Words.{bit};
ghost use Rattle.letter.specs.Put.{put_in};

use crate::atoms::Atoms;
use crate::kind::Kind;

// A set of satisfied atoms; its own mirror.
#[derive(Clone, Copy, Debug, PartialEq, Eq)]
pub struct Wire {
    atoms: Atoms,
}

impl Wire {
    // The letter that satisfies no atom.
    pub fn empty() -> Wire
        ensures items { (n : ℕ) → bit result.atoms.bits n ≡ false }
    {
        Wire::of(0)
    }

    // The letter that satisfies atom n where bit n is 1.
    pub fn of(bits: u32) -> Wire
        ensures items { (n : ℕ) → bit result.atoms.bits n ≡ bit bits n }
    {
        Wire {
            atoms: Atoms::of(bits),
        }
    }

    // The letter that satisfies this atom too; there is none from 32 on.
    pub fn with(self, atom: u8) -> Wire
        ensures items { (n : ℕ) → bit result.atoms.bits n ≡ put_in (bit self.atoms.bits) atom true n }
    {
        Wire {
            atoms: self.atoms.with(atom, true),
        }
    }
}

impl Kind for Wire {
    ghost use Rattle.letter.specs.WireLaws.{wire_few, wire_beyond, wire_twice, wire_told, wire_decided};

    const ATOMS: u8 = 32;

    ghost ATOMS = { 32 };

    ghost atoms = { λ x. bit x.atoms.bits };

    ghost mirrored = { λ x. x };

    ghost few = { wire_few };

    ghost beyond = { wire_beyond };

    ghost twice = { wire_twice };

    ghost told = { wire_told };

    ghost decided = { wire_decided };

    fn satisfies(&self, atom: u8) -> bool {
        self.atoms.has(atom)
    }

    fn mirror(&self) -> Wire {
        *self
    }
}
