//! A boolean in the buffer, and how it is read.

ghost use Rattle.std.specs.Prelude.{◌≡◌, IfOk};
ghost use Rattle.pol_cursor.specs.Outcome.{Answers};
ghost use Rattle.pol_datums.specs.BooleanRecord.{boolean_at, boolean_in, HasBoolean};

use crate::boolean_rec::BooleanRec;
use crate::datum::{CopiedDatum, DatumView};
use crate::flags::read_flag;
use crate::symbol_values::read_new_value;
use pol_cursor::{ByteList, Cursor, u32_in};
use pol_fields::Fault;
use pol_fields::fields::{BOOLEAN_LEN, BOOLEAN_NAME, BOOLEAN_STATE, BOOLEAN_VALUE};
use pol_symtab::{Taken, read_symbol_length, read_symbol_name};
use std::alloc::{AllocError, Global};
use std::marker::PhantomData;

/// A boolean in the buffer.
pub type BooleanView<'a> = DatumView<'a, BooleanRec>;

impl<'a> BooleanView<'a> {
    /// 1 where it is true by default, else 0.
    pub fn state(&self) -> u32
        ensures { result ≡ self.now.value.state }
    {
        u32_in(self.bytes, self.place as usize + 4)
    }
}

impl CopiedDatum for BooleanRec {
    fn rec(view: &BooleanView<'_>, alloc: Global) -> Result<BooleanRec, AllocError> {
        Ok(BooleanRec {
            value: view.value(),
            state: view.state(),
            name: ByteList::copy_of(alloc, view.name())?,
        })
    }
}

/// The boolean at the cursor, which then stands behind it, under what the records before it in the table have taken. Takes no
/// memory. `ValueOut`, `DuplicateValue`, `BadFlag`, `EmptyName`, `BadNameByte` or `DuplicateName`.
#[tactic(auto, unfolding(crate::specs::BooleanRecord::boolean_at))]
pub fn read_boolean<'a>(
    c: &mut Cursor<'a>,
    taken: &Taken<'a>,
    nprim: u32,
) -> Result<BooleanView<'a>, Fault>
    ensures exact { Answers (λ boolean. boolean.value) result (boolean_at taken.now nprim) c.old c.new }
    ensures stands { IfOk result (λ boolean. HasBoolean c.old.bytes c.old.place × (boolean ≡ record { place = c.old.place; value = boolean_in c.old.bytes c.old.place })) }
{
    let bytes = c.bytes();
    let place = c.place();
    read_new_value(c, BOOLEAN_VALUE, nprim, taken)?;
    read_flag(c, BOOLEAN_STATE)?;
    let len = read_symbol_length(c, BOOLEAN_LEN)?;
    read_symbol_name(c, BOOLEAN_NAME, len, taken)?;
    Ok(DatumView {
        bytes,
        place,
        kind: PhantomData,
    })
}
