//! A type in the buffer, and how it is read.

ghost use Rattle.std.specs.Prelude.{◌≡◌, IfOk};
ghost use Rattle.pol_cursor.specs.Outcome.{Answers};
ghost use Rattle.pol_datums.specs.TypeRecord.{type_at, type_in, HasType, flavour_of};

use crate::causes::{is_attribute, is_primary_type, properties_cause};
use crate::datum::{CopiedDatum, DatumView, ReferringDatum};
use crate::flavour::Flavour;
use crate::symbol_references::{dangling_alias, dangling_bounds};
use crate::symbol_values::{read_bounds, read_value};
use crate::type_rec::TypeRec;
use pol_cursor::{ByteList, Cursor, Mention, Names, refuse, u32_in};
use pol_fields::fields::{TYPE_BOUNDS, TYPE_LEN, TYPE_NAME, TYPE_PROPERTIES, TYPE_VALUE};
use pol_fields::{Fault, TableKind};
use pol_symtab::{Taken, read_symbol_length, read_symbol_name};
use std::alloc::{AllocError, Global};
use std::marker::PhantomData;

/// A type, an attribute or an alias of a type in the buffer.
pub type TypeView<'a> = DatumView<'a, TypeRec>;

impl<'a> TypeView<'a> {
    /// The properties of the type: bit 0x1 is primary and bit 0x2 attribute.
    pub fn properties(&self) -> u32
        ensures { result ≡ self.now.value.properties }
    {
        u32_in(self.bytes, self.place as usize + 8)
    }

    /// The value of the type that bounds it, or 0.
    pub fn bounds(&self) -> u32
        ensures { result ≡ self.now.value.bounds }
    {
        u32_in(self.bytes, self.place as usize + 12)
    }

    /// Whether it is an attribute or none, and `None` for an alias.
    pub fn flavour(&self) -> Option<Flavour>
        ensures { result ≡ flavour_of self.now.value.properties }
    {
        let properties = self.properties();
        if is_attribute(properties) {
            Some(Flavour::Attribute)
        } else if is_primary_type(properties) {
            Some(Flavour::Plain)
        } else {
            None
        }
    }
}

impl ReferringDatum for TypeRec {
    ghost use Rattle.pol_datums.specs.TypeRecord.{type_references};

    ghost references = { type_references };

    /// The first reference, in file order, whose value no primary record declares, as a fault at its field: the type that an
    /// alias stands for, and the type that bounds it.
    fn dangling<N: Names>(view: &TypeView<'_>, names: &N) -> Option<Fault> {
        let types = TableKind::Types;
        let stands_for = Mention::new(TYPE_VALUE, view.place + 4, types, view.value());
        match dangling_alias(names, view.is_primary(), stands_for) {
            Some(fault) => Some(fault),
            None => {
                let bounds = Mention::new(TYPE_BOUNDS, view.place + 12, types, view.bounds());
                dangling_bounds(names, bounds)
            }
        }
    }
}

impl CopiedDatum for TypeRec {
    fn rec(view: &TypeView<'_>, alloc: Global) -> Result<TypeRec, AllocError> {
        Ok(TypeRec {
            value: view.value(),
            properties: view.properties(),
            bounds: view.bounds(),
            name: ByteList::copy_of(alloc, view.name())?,
        })
    }
}

/// The type at the cursor, which then stands behind it, under what the records before it in the table have taken. Takes no
/// memory. `EmptyName`, `ValueOut`, `DuplicateValue` where it is primary and its value is taken, `BadNameByte` or
/// `DuplicateName`.
#[tactic(auto, unfolding(crate::specs::TypeRecord::type_at), using(pol_cursor::proofs::Facts::number_is))]
pub fn read_type<'a>(
    c: &mut Cursor<'a>,
    taken: &Taken<'a>,
    nprim: u32,
) -> Result<TypeView<'a>, Fault>
    ensures exact { Answers (λ t. t.value) result (type_at taken.now nprim) c.old c.new }
    ensures stands { IfOk result (λ t. HasType c.old.bytes c.old.place × (t ≡ record { place = c.old.place; value = type_in c.old.bytes c.old.place })) }
{
    let bytes = c.bytes();
    let first = c.place();
    let len = read_symbol_length(c, TYPE_LEN)?;
    let value = read_value(c, TYPE_VALUE, nprim)?;
    let place = c.place();
    let properties = c.u32(TYPE_PROPERTIES)?;
    refuse(
        properties_cause(taken, value, properties),
        place,
        TYPE_PROPERTIES,
    )?;
    read_bounds(c, TYPE_BOUNDS)?;
    read_symbol_name(c, TYPE_NAME, len, taken)?;
    Ok(DatumView {
        bytes,
        place: first,
        kind: PhantomData,
    })
}
