// Entries of the tables of a property; an operand is the number of an entry.
// Stays numbers, not boxed trees: the library has no heap, and judging goes down numbers that fall, by rules of the project.

// An entry of a table of conditions.
#[derive(Clone, Copy)]
pub enum Condition {
    True,
    False,
    Atom(u16),
    Not(u16),
    And(u16, u16),
}

// An entry of a table of sequences: b, r;s, r:s, r|s, r&&s, [*0], r[*], r@d.
#[derive(Clone, Copy)]
pub enum Sequence {
    Condition(u16),
    Concat(u16, u16),
    Fusion(u16, u16),
    Either(u16, u16),
    Both(u16, u16),
    Empty,
    Star(u16),
    At(u16, u16),
}

// An entry of a table of formulas: b!, b, r!, r, not f, f and g, X! f, f U g, f abort b, r |-> f, f@d.
#[derive(Clone, Copy)]
pub enum Formula {
    Strong(u16),
    Weak(u16),
    StrongSequence(u16),
    WeakSequence(u16),
    Not(u16),
    And(u16, u16),
    Next(u16),
    Until(u16, u16),
    Abort(u16, u16),
    Implies(u16, u16),
    At(u16, u16),
}
