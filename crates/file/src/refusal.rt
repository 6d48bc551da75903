// Why a property file is refused, and where.
ghost use Rattle.std.specs.Prelude.{◌≡◌, Some};
ghost use Rattle.file.specs.Refusals.{reason_number, section_number};

use std::error::Error;
use std::fmt;

// The question that got a no, with its number as documented.
#[derive(Clone, Copy, Debug, PartialEq, Eq)]
pub enum Reason {
    CountCutShort = 1,
    CountOutsideLimits = 2,
    EntriesCutShort = 3,
    BytesLeftOver = 4,
    KindNotListed = 5,
    OperandNamesNothing = 6,
    FirstNotTrue = 7,
    SequenceTooLarge = 8,
}

impl Reason {
    pub fn number(self) -> u8
        ensures { result ≡ reason_number self }
    {
        self as u8 // 1 to 8
    }
}

// A section of a property file, with its number in the file's order.
#[derive(Clone, Copy, Debug, PartialEq, Eq)]
pub enum Section {
    Conditions = 1,
    Sequences = 2,
    Formulas = 3,
}

impl Section {
    pub fn number(self) -> u8
        ensures { result ≡ section_number self }
    {
        self as u8 // 1 to 3
    }
}

// The first no: its question, the section it concerns, and the offset of the count, entry or byte in question.
#[derive(Clone, Copy, Debug, PartialEq, Eq)]
pub struct Refusal {
    pub reason: Reason,
    pub section: Section,
    pub offset: usize,
}

impl fmt::Display for Refusal {
    ghost use Rattle.file.specs.Refusals.{refusal_text};

    ghost output = { λ r. Some (refusal_text r) };

    fn fmt<W: fmt::Write>(&self, f: &mut fmt::Formatter<W>) -> fmt::Result {
        let reason = self.reason.number();
        let section = self.section.number();
        let offset = self.offset;
        write!(f, "{reason} {section} {offset}")
    }
}

impl Error for Refusal {}
