// What the entries of the three sections have in common: each is spelled by five bytes and names what stands before it.
ghost use Rattle.std.specs.Prelude.{◌≡◌, Bool, Option};
ghost use Rattle.file.specs.declared.raw.Raw.{Raw};
ghost use Rattle.file.specs.declared.tables.Counts.{Counts};
ghost use Rattle.file.specs.Rules.{Answered, about_names};

use crate::raw::Raw;
use crate::refusal::Reason;
use crate::tables::Counts;

// Stays: no TryFrom, whose contract is a relation to its result, where the rules of a section name the spelling as a function.
pub(crate) trait Entry: Copy {
    // The entry that is spelled, if its kind is listed and each unused operand is 0.
    ghost spelled: { Raw → Option Self };

    // Whether its operands name what they may, after so many entries of each section.
    ghost names: { Counts → Self → Bool };

    fn spell(raw: Raw) -> Option<Self>
        ensures { result ≡ spelled raw };

    fn names_before(self, before: Counts) -> bool
        ensures { result ≡ names before self };
}

// The entry that is spelled, if it names what it may.
pub(crate) fn read_entry<E: Entry>(raw: Raw, before: Counts) -> Result<E, Reason>
    ensures { Answered (E.Entry.spelled raw) (about_names (E.Entry.names before)) result }
{
    let entry = E::spell(raw).ok_or(Reason::KindNotListed)?;
    if entry.names_before(before) {
        Ok(entry)
    } else {
        Err(Reason::OperandNamesNothing)
    }
}
