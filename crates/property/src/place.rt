// The property place, which always holds an accepted property.
ghost use Rattle.std.specs.Prelude.{◌≡◌, true};
ghost use Rattle.file.specs.Accepted.{accepted, Measured};

use file::tables::Tables;

mod calls;

// A property that was read and accepted, or that of a new place.
#[derive(Clone, Copy)]
pub struct Property {
    tables: Tables,
    ghost accepts: { accepted tables ≡ true },
    ghost measured: { Measured tables },
}
