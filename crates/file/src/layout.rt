// Where the sections of a file stand, and how many entries they have.
ghost use Rattle.std.specs.Prelude.{◌≡◌, ◌+◌, ◌*◌, ◌≤◌, length, take, drop};
ghost use Rattle.file.specs.Refusals.{least_count};
ghost use Rattle.file.specs.Layout.{CountsSection, LaysOut};

use crate::raw::wide;
use crate::refusal::{Reason, Refusal, Section};
use crate::tables::Counts;

// The least number of entries that a section has.
fn least(section: Section) -> u16
    ensures { result ≡ least_count section }
{
    match section {
        Section::Conditions | Section::Formulas => 1,
        Section::Sequences => 0,
    }
}

// The count of the section whose count stands at the offset `at`.
#[tactic(auto, using(crate::proofs::FirstSection::of_section))]
fn count(bytes: &[u8], section: Section, at: usize) -> Result<usize, Refusal>
    requires { at ≤ length bytes.now }
    ensures { CountsSection section bytes.now at result }
{
    if bytes.len() - at < 2 {
        return Err(Refusal {
            reason: Reason::CountCutShort,
            section,
            offset: at,
        });
    }
    let n = wide(bytes[at], bytes[at + 1]);
    if n < least(section) || n > 64 {
        return Err(Refusal {
            reason: Reason::CountOutsideLimits,
            section,
            offset: at,
        });
    }
    if bytes.len() - at - 2 < 5 * n as usize {
        return Err(Refusal {
            reason: Reason::EntriesCutShort,
            section,
            offset: at + 2,
        });
    }
    Ok(n as usize)
}

// The counts of a file in which every section is there, and nothing else.
#[tactic(auto, using(crate::proofs::FirstSection::of_sections))]
pub(crate) fn layout(bytes: &[u8]) -> Result<Counts, Refusal>
    ensures { LaysOut bytes.now result }
{
    let conditions = count(bytes, Section::Conditions, 0)?;
    let second = 2 + 5 * conditions;
    let sequences = count(bytes, Section::Sequences, second)?;
    let third = second + 2 + 5 * sequences;
    let formulas = count(bytes, Section::Formulas, third)?;
    let end = third + 2 + 5 * formulas;
    if bytes.len() > end {
        return Err(Refusal {
            reason: Reason::BytesLeftOver,
            section: Section::Formulas,
            offset: end,
        });
    }
    Ok(Counts {
        conditions,
        sequences,
        formulas,
    })
}

// The bytes of the `n` entries of the section whose count stands at the offset `at`.
pub(crate) fn part(bytes: &[u8], at: usize, n: usize) -> &[u8]
    requires few { n ≤ 64 }
    requires whole { at + 2 + 5 * n ≤ length bytes.now }
    ensures items { result.now ≡ take (5 * n) (drop (at + 2) bytes.now) }
    ensures len { length result.now ≡ 5 * n }
{
    &bytes[at + 2..at + 2 + 5 * n]
}
