// The values of a wire in a simulation.
ghost use Rattle.std.specs.Prelude.{◌≡◌};
ghost use Rattle.letter.specs.Values.{satisfied, swapped, value_by};

// A wire at 1 or y satisfies its atom. In the mirror x and y trade places, and 0 and 1 stay.
#[derive(Clone, Copy, Debug, PartialEq, Eq)]
pub enum Value {
    Zero,
    One,
    X,
    Y,
}

impl Value {
    // Whether the wire's atom is satisfied.
    pub(crate) fn satisfies(self) -> bool
        ensures value { result ≡ satisfied self }
    {
        matches!(self, Value::One | Value::Y)
    }

    pub(crate) fn mirror(self) -> Value
        ensures value { result ≡ swapped self }
    {
        match self {
            Value::Zero => Value::Zero,
            Value::One => Value::One,
            Value::X => Value::Y,
            Value::Y => Value::X,
        }
    }

    // The value that satisfies the atom, and whose mirror does, as the two flags say.
    pub(crate) fn by(own: bool, other: bool) -> Value
        ensures value { result ≡ value_by own other }
    {
        match (own, other) {
            (false, false) => Value::Zero,
            (true, true) => Value::One,
            (false, true) => Value::X,
            (true, false) => Value::Y,
        }
    }
}
