//! A category in the buffer, and how it is read.

ghost use Rattle.std.specs.Prelude.{◌≡◌, IfOk};
ghost use Rattle.pol_cursor.specs.Outcome.{Answers};
ghost use Rattle.pol_datums.specs.CategoryRecord.{category_at, category_in, HasCategory};

use crate::category_rec::CategoryRec;
use crate::causes::isalias_cause;
use crate::datum::{CopiedDatum, DatumView, ReferringDatum};
use crate::symbol_references::dangling_alias;
use crate::symbol_values::read_value;
use pol_cursor::{ByteList, Cursor, Mention, Names, refuse, u32_in};
use pol_fields::fields::{CATEGORY_ISALIAS, CATEGORY_LEN, CATEGORY_NAME, CATEGORY_VALUE};
use pol_fields::{Fault, TableKind};
use pol_symtab::{Taken, read_symbol_length, read_symbol_name};
use std::alloc::{AllocError, Global};
use std::marker::PhantomData;

/// A category or an alias of one in the buffer.
pub type CategoryView<'a> = DatumView<'a, CategoryRec>;

impl<'a> CategoryView<'a> {
    /// 1 for an alias, else 0.
    pub fn isalias(&self) -> u32
        ensures { result ≡ self.now.value.isalias }
    {
        u32_in(self.bytes, self.place as usize + 8)
    }
}

impl ReferringDatum for CategoryRec {
    ghost use Rattle.pol_datums.specs.CategoryRecord.{category_references};

    ghost references = { category_references };

    /// The category that an alias stands for as a fault at its field, where no primary record declares it.
    fn dangling<N: Names>(view: &CategoryView<'_>, names: &N) -> Option<Fault> {
        let categories = TableKind::Categories;
        let stands_for = Mention::new(CATEGORY_VALUE, view.place + 4, categories, view.value());
        dangling_alias(names, view.is_primary(), stands_for)
    }
}

impl CopiedDatum for CategoryRec {
    fn rec(view: &CategoryView<'_>, alloc: Global) -> Result<CategoryRec, AllocError> {
        Ok(CategoryRec {
            value: view.value(),
            isalias: view.isalias(),
            name: ByteList::copy_of(alloc, view.name())?,
        })
    }
}

/// The category at the cursor, which then stands behind it, under what the records before it in the table have taken. Takes no
/// memory. `EmptyName`, `ValueOut`, `BadFlag`, `DuplicateValue` where it is primary and its value is taken, `BadNameByte` or
/// `DuplicateName`.
#[tactic(auto, unfolding(crate::specs::CategoryRecord::category_at), using(pol_cursor::proofs::Facts::number_is))]
pub fn read_category<'a>(
    c: &mut Cursor<'a>,
    taken: &Taken<'a>,
    nprim: u32,
) -> Result<CategoryView<'a>, Fault>
    ensures exact { Answers (λ category. category.value) result (category_at taken.now nprim) c.old c.new }
    ensures stands { IfOk result (λ category. HasCategory c.old.bytes c.old.place × (category ≡ record { place = c.old.place; value = category_in c.old.bytes c.old.place })) }
{
    let bytes = c.bytes();
    let first = c.place();
    let len = read_symbol_length(c, CATEGORY_LEN)?;
    let value = read_value(c, CATEGORY_VALUE, nprim)?;
    let place = c.place();
    let isalias = c.u32(CATEGORY_ISALIAS)?;
    refuse(
        isalias_cause(taken, value, isalias),
        place,
        CATEGORY_ISALIAS,
    )?;
    read_symbol_name(c, CATEGORY_NAME, len, taken)?;
    Ok(DatumView {
        bytes,
        place: first,
        kind: PhantomData,
    })
}
