//! The length and the name of a symbol's record, as they are read.

ghost use Rattle.std.specs.Prelude.{◌≡◌, ◌≤◌, ◌+◌, OnOk, IfOk, length, take, drop};
ghost use Rattle.pol_cursor.specs.Outcome.{Answers};
ghost use Rattle.pol_cursor.specs.Parts.{num};
ghost use Rattle.pol_symtab.specs.SymbolFields.{symbol_length_at, symbol_name_at};

use crate::causes::{length_cause, name_cause};
use crate::taken::Taken;
use pol_cursor::{Cursor, refuse};
use pol_fields::{Fault, Field};

/// The length of a symbol's name. `EmptyName` where it is 0.
#[tactic(auto, unfolding(crate::specs::SymbolFields::symbol_length_at), using(pol_cursor::proofs::Facts::number_is))]
pub fn read_symbol_length(c: &mut Cursor<'_>, field: Field) -> Result<u32, Fault>
    ensures exact { Answers (λ len. len) result (symbol_length_at field) c.old c.new }
    ensures same { IfOk result (λ len. len ≡ num c.old.bytes c.old.place 4) }
    ensures next { OnOk result ((c.new.place ≡ c.old.place + 4) × (c.new.place ≤ length c.old.bytes)) }
{
    let place = c.place();
    let len = c.u32(field)?;
    refuse(length_cause(len), place, field)?;
    Ok(len)
}

/// A symbol's name of that length. `BadNameByte` where a byte of it lies outside 0x21 to 0x7E, else `DuplicateName` where it is taken.
#[tactic(auto, unfolding(crate::specs::SymbolFields::symbol_name_at), using(pol_cursor::proofs::Facts::string_is))]
pub fn read_symbol_name<'a>(
    c: &mut Cursor<'a>,
    field: Field,
    len: u32,
    taken: &Taken<'a>,
) -> Result<&'a [u8], Fault>
    ensures exact { Answers (λ name. name.now) result (symbol_name_at field taken.now len) c.old c.new }
    ensures same { IfOk result (λ name. name.now ≡ take len (drop c.old.place c.old.bytes)) }
    ensures next { OnOk result ((c.new.place ≡ c.old.place + len) × (c.new.place ≤ length c.old.bytes)) }
{
    let place = c.place();
    let name = c.take(len, field)?;
    refuse(name_cause(taken, name), place, field)?;
    Ok(name)
}
