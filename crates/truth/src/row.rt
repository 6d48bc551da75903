// Rows of a truth table: 33 bytes a place, a flag for each of 256 conditions and one for the condition false.
ghost use Rattle.std.specs.Prelude.{◌≡◌};
ghost use Rattle.truth.specs.Rows.{row_at, tells};

use bits::flags;

// The most conditions; their number is also that of the flag that tells of the condition false.
pub const MOST_CONDITIONS: usize = 256;

// The bytes of a row: 257 flags fit.
pub const ROW: usize = 33;

// The row of place k, or what the bytes have of it.
pub fn row(bytes: &[u8], k: usize) -> &[u8]
    ensures value { result.now ≡ row_at bytes.now k }
{
    let from = k.saturating_mul(ROW).min(bytes.len());
    let to = from.saturating_add(ROW).min(bytes.len());
    &bytes[from..to]
}

// What the row tells of the condition n; of a number past the conditions it tells of the condition false.
pub fn tells(row: &[u8], n: u16) -> bool
    ensures value { result ≡ tells row.now n }
{
    flags::told(row, usize::from(n).min(MOST_CONDITIONS))
}
