//! A role in the buffer, and how it is read.

ghost use Rattle.std.specs.Prelude.{◌≡◌, IfOk};
ghost use Rattle.pol_cursor.specs.Outcome.{Answers};
ghost use Rattle.pol_datums.specs.RoleRecord.{role_at, role_in, HasRole, dominates_place};

use crate::datum::{CopiedDatum, DatumView, ReferringDatum};
use crate::role_rec::RoleRec;
use crate::symbol_references::dangling_bounds;
use crate::symbol_values::{read_bounds, read_new_value};
use pol_bitmap::{BitmapView, Set};
use pol_cursor::{ByteList, Cursor, Mention, Names, u32_in};
use pol_fields::fields::{ROLE_BOUNDS, ROLE_LEN, ROLE_NAME, ROLE_VALUE};
use pol_fields::{Fault, TableKind};
use pol_symtab::{Taken, read_symbol_length, read_symbol_name};
use std::alloc::{AllocError, Global};
use std::marker::PhantomData;

/// A role in the buffer.
pub type RoleView<'a> = DatumView<'a, RoleRec>;

impl<'a> RoleView<'a> {
    /// The value of the role that bounds it, or 0.
    pub fn bounds(&self) -> u32
        ensures { result ≡ self.now.value.bounds }
    {
        u32_in(self.bytes, self.place as usize + 8)
    }

    /// The roles that it dominates: bit v - 1 stands for the value v.
    pub fn dominates(&self) -> BitmapView<'a>
        ensures { result ≡ self.now.value.dominates }
    {
        BitmapView::at(self.bytes, dominates_place(self.bytes, self.place))
    }

    /// The types of the role: bit v - 1 stands for the value v.
    #[tactic(auto, using(pol_bitmap::proofs::NodePlaces::length_nodes_in))]
    pub fn types(&self) -> BitmapView<'a>
        ensures { result ≡ self.now.value.types }
    {
        let place = dominates_place(self.bytes, self.place) + self.dominates().size();
        BitmapView::at(self.bytes, place)
    }
}

impl ReferringDatum for RoleRec {
    ghost use Rattle.pol_datums.specs.RoleRecord.{role_references};

    ghost references = { role_references };

    /// The role that bounds it as a fault at its field, where no primary record declares it.
    fn dangling<N: Names>(view: &RoleView<'_>, names: &N) -> Option<Fault> {
        let bounds = Mention::new(ROLE_BOUNDS, view.place + 8, TableKind::Roles, view.bounds());
        dangling_bounds(names, bounds)
    }
}

impl CopiedDatum for RoleRec {
    fn rec(view: &RoleView<'_>, alloc: Global) -> Result<RoleRec, AllocError> {
        Ok(RoleRec {
            value: view.value(),
            bounds: view.bounds(),
            name: ByteList::copy_of(alloc, view.name())?,
            dominates: Set::from_view(alloc, &view.dominates())?,
            types: Set::from_view(alloc, &view.types())?,
        })
    }
}

// The place of the first bitmap, behind the name of the role there.
fn dominates_place(bytes: &[u8], place: u32) -> u32
    requires { HasRole bytes.now place }
    ensures { result ≡ dominates_place bytes.now place }
{
    place + 12 + u32_in(bytes, place as usize)
}

/// The role at the cursor, which then stands behind it, under what the records before it in the table have taken. Takes no
/// memory. `EmptyName`, `ValueOut`, `DuplicateValue`, `BadNameByte`, `DuplicateName` or a fault of a bitmap.
#[tactic(auto, unfolding(crate::specs::RoleRecord::role_at))]
pub fn read_role<'a>(
    c: &mut Cursor<'a>,
    taken: &Taken<'a>,
    nprim: u32,
) -> Result<RoleView<'a>, Fault>
    ensures exact { Answers (λ role. role.value) result (role_at taken.now nprim) c.old c.new }
    ensures stands { IfOk result (λ role. HasRole c.old.bytes c.old.place × (role ≡ record { place = c.old.place; value = role_in c.old.bytes c.old.place })) }
{
    let bytes = c.bytes();
    let place = c.place();
    let len = read_symbol_length(c, ROLE_LEN)?;
    read_new_value(c, ROLE_VALUE, nprim, taken)?;
    read_bounds(c, ROLE_BOUNDS)?;
    read_symbol_name(c, ROLE_NAME, len, taken)?;
    BitmapView::read(c)?;
    BitmapView::read(c)?;
    Ok(DatumView {
        bytes,
        place,
        kind: PhantomData,
    })
}
