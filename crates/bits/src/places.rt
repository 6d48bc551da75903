// Sets of places.
ghost use Rattle.std.specs.Prelude.{◌≡◌, ℕ, ◌-◌, ◌^◌, ◌<◌, ◌≤◌, min, length, false, not, ◌&&◌, ◌||◌, ◌==◌, nat_le, nat_lt};
ghost use Rattle.bits.specs.Member.{member, count_below};
ghost use Rattle.bits.specs.Words.{EachMadeBy};

use crate::word;
use std::array;

// The number of places of a set: 512 letters, and the end behind them, fit.
pub const PLACES: usize = 576;

// A set of places below 576.
#[derive(Clone, Copy)]
pub struct Places {
    words: [u64; 9],
}

// The word whose lowest bits are set, n of them.
fn lowest(n: usize) -> u64
    ensures value { result ≡ 2 ^ min n 64 - 1 }
{
    if n < 64 { (1 << n) - 1 } else { u64::MAX }
}

// The places below n.
fn below(n: usize) -> Places
    ensures items { (k : ℕ) → member result k ≡ (nat_lt k 576 && nat_lt k n) }
{
    let words = array::from_fn(move |i| lowest(n.saturating_sub(64 * i)));
    Places { words }
}

impl Places {
    // The empty set.
    pub fn none() -> Places
        ensures items { (k : ℕ) → member result k ≡ false }
    {
        Places { words: [0; 9] }
    }

    // The places from `lo` to `hi`.
    pub fn between(lo: usize, hi: usize) -> Places
        ensures items { (k : ℕ) → member result k ≡ ((nat_le lo k && nat_le k hi) && nat_lt k 576) }
    {
        let mut places = below(hi.saturating_add(1));
        places.remove(&below(lo));
        places
    }

    // Whether the place is in the set; none is from 576 on.
    pub fn contains(&self, k: usize) -> bool
        ensures value { result ≡ member self.now k }
    {
        k < PLACES && word::has(self.words[k / 64], k % 64)
    }

    // Adds the place if the flag says so; a place from 576 on changes nothing.
    pub fn put(&mut self, k: usize, flag: bool)
        ensures items { k < 576 → (j : ℕ) → member self.new j ≡ ((j == k && flag) || member self.old j) }
        ensures same { 576 ≤ k → self.new ≡ self.old }
    {
        if flag && k < PLACES {
            self.words[k / 64] = word::with(self.words[k / 64], k % 64, true);
        }
    }

    // Makes each word what `f` makes of it and that of the other set.
    fn combine<F: Fn(u64, u64) -> u64>(&mut self, other: &Places, f: F)
        requires { F.IsAlwaysCallable f }
        ensures made { EachMadeBy (F.post f) self.old.words other.now.words self.new.words }
        ensures len { length self.new.words ≡ 9 }
    {
        for (i, word) in other.words.iter().enumerate() {
            self.words[i] = f(self.words[i], *word);
        }
    }

    // Adds the members of the other set.
    pub fn join(&mut self, other: &Places)
        ensures items { (j : ℕ) → member self.new j ≡ (member self.old j || member other.now j) }
    {
        self.combine(other, |own, more| own | more);
    }

    // Adds the members of the other set if the flag says so.
    pub fn gather(&mut self, other: &Places, flag: bool)
        ensures items { (j : ℕ) → member self.new j ≡ (member self.old j || (member other.now j && flag)) }
    {
        if flag {
            self.join(other);
        }
    }

    // Keeps what is in the other set too.
    pub fn meet(&mut self, other: &Places)
        ensures items { (j : ℕ) → member self.new j ≡ (member self.old j && member other.now j) }
    {
        self.combine(other, |own, kept| own & kept);
    }

    // Takes out the members of the other set.
    pub fn remove(&mut self, other: &Places)
        ensures items { (j : ℕ) → member self.new j ≡ (member self.old j && not (member other.now j)) }
    {
        self.combine(other, |own, less| own ^ (own & less));
    }

    // Leaves nothing unless the flag says so.
    pub fn keep(&mut self, flag: bool)
        ensures items { (j : ℕ) → member self.new j ≡ (member self.old j && flag) }
    {
        if !flag {
            *self = Places::none();
        }
    }

    // The number of members.
    pub fn count(&self) -> usize
        ensures value { result ≡ count_below (member self.now) 576 }
        ensures few { result ≤ 576 }
    {
        let mut count = 0;
        for word in &self.words {
            count += word.count_ones() as usize;
        }
        count
    }
}
