//! What records of the table of types declare.

ghost use Rattle.std.specs.Prelude.{◌≡◌};
ghost use Rattle.pol_expand.specs.Flavours.{is_flavour};

use pol_datums::Flavour;

/// Whether a record declares a value of that flavour.
pub fn is_flavour(flavour: Flavour, other: Option<Flavour>) -> bool
    ensures { result ≡ is_flavour flavour other }
{
    match (flavour, other) {
        (Flavour::Plain, Some(Flavour::Plain)) => true,
        (Flavour::Attribute, Some(Flavour::Attribute)) => true,
        _ => false,
    }
}
