// Simulator letters: each of 32 wires is 0, 1, x or y.
ghost use Rattle.std.specs.Prelude.{◌≡◌, ℕ};
ghost use Rattle.letter.specs.Put.{put_in};
ghost use Rattle.letter.specs.Values.{satisfied, swapped, value_at};

use crate::atoms::Atoms;
use crate::kind::Kind;
use crate::value::Value;

// The atoms that the letter satisfies, and those that its mirror satisfies.
#[derive(Clone, Copy, Debug, PartialEq, Eq)]
pub struct Simulated {
    own: Atoms,
    other: Atoms,
}

impl Simulated {
    // The letter whose wires are all 0.
    pub fn zeros() -> Simulated
        ensures items { (n : ℕ) → value_at result.own.bits result.other.bits n ≡ Value.Zero }
    {
        Simulated {
            own: Atoms::of(0),
            other: Atoms::of(0),
        }
    }

    // The value of a wire; 0 from 32 on, where there is none.
    pub fn value(&self, wire: u8) -> Value
        ensures value { result ≡ value_at self.now.own.bits self.now.other.bits wire }
    {
        Value::by(self.own.has(wire), self.other.has(wire))
    }

    // The letter with this value on the wire; there is none from 32 on.
    pub fn with(self, wire: u8, value: Value) -> Simulated
        ensures items { (n : ℕ) → value_at result.own.bits result.other.bits n ≡ put_in (value_at self.own.bits self.other.bits) wire value n }
    {
        Simulated {
            own: self.own.with(wire, value.satisfies()),
            other: self.other.with(wire, value.mirror().satisfies()),
        }
    }
}

impl Kind for Simulated {
    ghost use Rattle.letter.specs.SimulatedLaws.{simulated_few, simulated_beyond, simulated_twice, simulated_told, simulated_decided};

    const ATOMS: u8 = 32;

    ghost ATOMS = { 32 };

    ghost atoms = { λ x n. satisfied (value_at x.own.bits x.other.bits n) };

    ghost mirrored = { λ x. record { own = x.other; other = x.own } };

    ghost few = { simulated_few };

    ghost beyond = { simulated_beyond };

    ghost twice = { simulated_twice };

    ghost told = { simulated_told };

    ghost decided = { simulated_decided };

    fn satisfies(&self, atom: u8) -> bool {
        self.own.has(atom)
    }

    // x and y trade places on every wire.
    fn mirror(&self) -> Simulated
        ensures value { result ≡ record { own = self.now.other; other = self.now.own } }
        ensures items { (n : ℕ) → value_at result.own.bits result.other.bits n ≡ swapped (value_at self.now.own.bits self.now.other.bits n) }
    {
        Simulated {
            own: self.other,
            other: self.own,
        }
    }
}
