// The values of symbols, and their bounds.
ghost use Rattle.std.specs.Prelude.{◌≡◌, ◌≤◌, ◌+◌, OnOk, IfOk, length};
ghost use Rattle.pol_cursor.specs.Outcome.{Answers};
ghost use Rattle.pol_cursor.specs.Parts.{num};
ghost use Rattle.pol_datums.specs.SymbolValues.{value_at, new_value_at, bounds_at};

use pol_cursor::{Cursor, refuse};
use pol_fields::{Fault, Field};
use pol_symtab::{Taken, new_value_cause, value_cause};

/// The value at the cursor of a record that may be an alias. `ValueOut` where it is not 1 to `nprim`.
#[tactic(auto, unfolding(crate::specs::SymbolValues::value_at), using(pol_cursor::proofs::Facts::number_is))]
pub fn read_value(c: &mut Cursor<'_>, field: Field, nprim: u32) -> Result<u32, Fault>
    ensures exact { Answers (λ value. value) result (value_at field nprim) c.old c.new }
    ensures same { IfOk result (λ value. value ≡ num c.old.bytes c.old.place 4) }
    ensures next { OnOk result ((c.new.place ≡ c.old.place + 4) × (c.new.place ≤ length c.old.bytes)) }
{
    let place = c.place();
    let value = c.u32(field)?;
    refuse(value_cause(nprim, value), place, field)?;
    Ok(value)
}

/// The value at the cursor of a record that is always primary. `ValueOut` where it is not 1 to `nprim`, else `DuplicateValue`
/// where it is taken.
#[tactic(auto, unfolding(crate::specs::SymbolValues::new_value_at), using(pol_cursor::proofs::Facts::number_is))]
pub fn read_new_value(
    c: &mut Cursor<'_>,
    field: Field,
    nprim: u32,
    taken: &Taken<'_>,
) -> Result<u32, Fault>
    ensures exact { Answers (λ value. value) result (new_value_at field nprim taken.now) c.old c.new }
    ensures same { IfOk result (λ value. value ≡ num c.old.bytes c.old.place 4) }
    ensures next { OnOk result ((c.new.place ≡ c.old.place + 4) × (c.new.place ≤ length c.old.bytes)) }
{
    let place = c.place();
    let value = c.u32(field)?;
    refuse(new_value_cause(nprim, taken, value), place, field)?;
    Ok(value)
}

/// The value at the cursor that bounds a record.
#[tactic(auto, unfolding(crate::specs::SymbolValues::bounds_at), using(pol_cursor::proofs::Facts::number_is))]
pub fn read_bounds(c: &mut Cursor<'_>, field: Field) -> Result<u32, Fault>
    ensures exact { Answers (λ bounds. bounds) result (bounds_at field) c.old c.new }
    ensures same { IfOk result (λ bounds. bounds ≡ num c.old.bytes c.old.place 4) }
    ensures next { OnOk result ((c.new.place ≡ c.old.place + 4) × (c.new.place ≤ length c.old.bytes)) }
{
    c.u32(field)
}
