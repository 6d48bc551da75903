// The interface of letter kinds.
ghost use Rattle.std.specs.Prelude.{◌≡◌, ℕ, ◌≤◌, Bool, false, Decides};
ghost use Rattle.letter.specs.Meaning.{meaning};

// A kind of ordinary letters. All that counts of a letter are two sets of atoms, its own and its mirror's.
pub trait Kind: Copy + Eq {
    // The number of atoms, 1 to 32.
    const ATOMS: u8;

    ghost ATOMS: { ℕ };

    // The atoms that a letter satisfies.
    ghost atoms: { Self → ℕ → Bool };

    ghost mirrored: { Self → Self };

    fn satisfies(&self, atom: u8) -> bool
        ensures value { result ≡ atoms self.now atom };

    fn mirror(&self) -> Self
        ensures value { result ≡ mirrored self.now };

    ghost few: { (1 ≤ ATOMS) × (ATOMS ≤ 32) };

    // The atoms of a letter are below the kind's number.
    ghost beyond: { (x : Self) (n : ℕ) → ATOMS ≤ n → atoms x n ≡ false };

    ghost twice: { (x : Self) → mirrored (mirrored x) ≡ x };

    // `==` tells whether two letters have one meaning,
    ghost told: { (x y : Self) → Decides (Self.eq x y) (meaning atoms mirrored x ≡ meaning atoms mirrored y) };

    // and letters with one meaning are one value.
    ghost decided: { (x y : Self) → Decides (Self.eq x y) (x ≡ y) };
}
