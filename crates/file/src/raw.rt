// The five bytes of an entry: its kind and its two operands.
ghost use Rattle.std.specs.Prelude.{◌≡◌};
ghost use Rattle.file.specs.Kinds.{wide_number, without_operands, without_b};

// An entry as it stands in the file.
#[derive(Clone, Copy)]
pub(crate) struct Raw {
    pub(crate) kind: u8,
    pub(crate) a: u16,
    pub(crate) b: u16,
}

// The number that two bytes are, the most significant first.
pub(crate) fn wide(high: u8, low: u8) -> u16
    ensures { result ≡ wide_number high low }
{
    u16::from_be_bytes([high, low])
}

impl Raw {
    // The entry `e`, if both operands, which it does not use, are 0.
    pub(crate) fn unused<E: Drop>(self, e: E) -> Option<E>
        ensures { result ≡ without_operands self.a self.b e }
    {
        (self.a == 0 && self.b == 0).then_some(e)
    }

    // The entry `e`, if operand B, which it does not use, is 0.
    pub(crate) fn unused_b<E: Drop>(self, e: E) -> Option<E>
        ensures { result ≡ without_b self.b e }
    {
        (self.b == 0).then_some(e)
    }
}
