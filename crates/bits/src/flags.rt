// Flags as the bits of lent bytes.
ghost use Rattle.std.specs.Prelude.{◌≡◌, ℕ, ◌*◌, ◌/◌, ◌<◌, ◌≤◌, ◌&&◌, length, if◌then◌else◌, nat_eq, nat_lt};
ghost use Rattle.bits.specs.Flags.{flagged};
ghost use Rattle.bits.specs.Words.{bit};

use crate::word;

// Flag n, which is not set past the bytes.
pub fn told(row: &[u8], n: usize) -> bool
    ensures value { result ≡ flagged row.now n }
{
    n / 8 < row.len() && word::has(u64::from(row[n / 8]), n % 8)
}

// Makes flag n what `flag` says; a flag past the bytes changes nothing.
// Stays bytes, whose length a contract tells, here and below: a rule of the project has the caller lend them.
pub fn put(row: &mut [u8], n: usize, flag: bool)
    ensures items { n / 8 < length row.old → (j : ℕ) → flagged row.new j ≡ (if nat_eq j n then flag else flagged row.old j) }
    ensures same { length row.old ≤ n / 8 → row.new ≡ row.old }
    ensures len { length row.new ≡ length row.old }
{
    if n / 8 < row.len() {
        row[n / 8] = word::with(u64::from(row[n / 8]), n % 8, flag) as u8;
    }
}

// The byte whose bits all are what `flag` says.
// Stays: std has no conversion that makes all bits alike, and arithmetic on the flag is no plainer.
fn uniform(flag: bool) -> u8
    ensures items { (k : ℕ) → bit result k ≡ (nat_lt k 8 && flag) }
{
    if flag { 255 } else { 0 }
}

// Makes every flag what `flag` says.
pub fn fill(row: &mut [u8], flag: bool)
    ensures items { (j : ℕ) → flagged row.new j ≡ (nat_lt j (8 * length row.old) && flag) }
    ensures len { length row.new ≡ length row.old }
{
    row.fill(uniform(flag));
}
