// The form place, which always holds the rewriting of a property, or the new form.
ghost use Rattle.std.specs.Prelude.{◌≡◌, true};
ghost use Rattle.form.specs.Made.{made};

use crate::draft::Rooted;
use property::place::Property;

mod calls;

// A clock-free form, and the property that it was made from.
#[derive(Clone, Copy)]
pub struct Form {
    property: Property,
    rooted: Rooted,
    ghost made: { made property rooted.draft rooted.root ≡ true },
}
