// The bits of a word.
ghost use Rattle.std.specs.Prelude.{◌≡◌, ℕ, ◌^◌, ◌<◌, ◌≤◌, if◌then◌else◌, nat_eq};
ghost use Rattle.bits.specs.Words.{bit};

// Whether bit n is set; none is from 64 on.
pub fn has(word: u64, n: usize) -> bool
    ensures value { result ≡ bit word n }
{
    n < 64 && (word >> n) & 1 == 1
}

// The word with bit n made what `flag` says; a number from 64 on changes nothing. A word of w bits stays one if n is below w.
pub fn with(word: u64, n: usize, flag: bool) -> u64
    ensures items { n < 64 → (k : ℕ) → bit result k ≡ (if nat_eq k n then flag else bit word k) }
    ensures same { 64 ≤ n → result ≡ word }
    ensures short { (w : ℕ) → n < w → word < 2 ^ w → result < 2 ^ w }
{
    if n >= 64 {
        return word;
    }
    let mark = 1 << n;
    if flag {
        word | mark
    } else {
        word ^ (word & mark)
    }
}
