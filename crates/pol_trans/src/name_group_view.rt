//! A group of file-name transitions in the buffer, and how it is read.

ghost use Rattle.std.specs.Prelude.{◌≡◌, ◌<◌, IfOk, Some, option_map, slice_get, length, map};
ghost use Rattle.pol_cursor.specs.Outcome.{Answers};
ghost use Rattle.pol_cursor.specs.References.{dangling_of, values_of};
ghost use Rattle.pol_trans.specs.NameGroupRecord.{name_group_at, name_group_in, HasNameGroup, name_group_references, name_data_of, name_datum_reference};

use crate::name_datum_view::NameDatum;
use crate::name_group_rec::NameGroupRec;
use crate::transition::{Stored, Transition, TransitionView, read_transition};
use pol_bitmap::BitmapView;
use pol_cursor::{
    ByteList, Cursor, Mention, Names, NestedRecords, first_dangling, name_end, name_standing,
    read_name, read_nested, u32_in,
};
use pol_fields::Fault;
use pol_fields::TableKind::{Classes, Types};
use pol_fields::fields::{
    NAMEGROUP_CLASS, NAMEGROUP_LEN, NAMEGROUP_NAME, NAMEGROUP_NDATUM, NAMEGROUP_TARGET,
};
use std::alloc::{AllocError, Global};

/// A group in the buffer.
pub type NameGroupView<'a> = TransitionView<'a, NameGroupRec>;

impl<'a> NameGroupView<'a> {
    /// The name of the new object: one byte or more, none of them 0.
    pub fn name(&self) -> &'a [u8]
        ensures { result.now ≡ self.now.value.name }
    {
        name_standing(self.bytes, self.place)
    }

    /// The value of the type that the object is made in.
    pub fn target(&self) -> u32
        ensures { result ≡ self.now.value.target }
    {
        u32_in(self.bytes, name_end(self.bytes, self.place) as usize)
    }

    /// The value of the class of the new object.
    pub fn class(&self) -> u32
        ensures { result ≡ self.now.value.class }
    {
        u32_in(self.bytes, name_end(self.bytes, self.place) as usize + 4)
    }

    /// The data, in file order.
    #[tactic(auto, using(crate::proofs::NameData::data_placed, pol_cursor::proofs::Facts::length_part))]
    pub fn data(&self) -> NestedRecords<'a, NameDatum>
        ensures placed { result ≡ name_data_of self.now }
        ensures values { values_of result ≡ self.now.value.datums }
    {
        let place = name_end(self.bytes, self.place);
        let count = u32_in(self.bytes, place as usize + 8);
        NestedRecords::at(self.bytes, place + 12, count)
    }

    /// The sources of the datum of that number, counted from 0: bit v - 1 stands for the value v. It goes through the data before.
    pub fn sources(&self, i: u32) -> BitmapView<'a>
        requires { i < length self.now.value.datums }
        ensures { option_map (λ datum. datum.sources) (slice_get self.now.value.datums i) ≡ Some result }
    {
        self.data().view(i).sources()
    }

    /// The value of the type that the new object has, in the datum of that number. It goes through the data before.
    pub fn default(&self, i: u32) -> u32
        requires { i < length self.now.value.datums }
        ensures { option_map (λ datum. datum.default) (slice_get self.now.value.datums i) ≡ Some result }
    {
        self.data().view(i).default()
    }
}

impl Stored for NameGroupRec {
    ghost standing = { name_group_in };

    ghost has = { HasNameGroup };

    fn copy_of(view: &NameGroupView<'_>, alloc: Global) -> Result<NameGroupRec, AllocError> {
        Ok(NameGroupRec {
            name: ByteList::copy_of(alloc, view.name())?,
            target: view.target(),
            class: view.class(),
            datums: view.data().rec(alloc)?,
        })
    }
}

impl Transition for NameGroupRec {
    ghost reads = { name_group_at };

    ghost references = { name_group_references };

    // `BadName` where the name is empty or has a byte 0.
    #[tactic(auto, unfolding(crate::specs::NameGroupRecord::name_group_at), using(pol_cursor::proofs::Facts::number_is, pol_cursor::proofs::Facts::string_is))]
    fn pass(c: &mut Cursor<'_>) -> Result<(), Fault> {
        read_name(c, NAMEGROUP_LEN, NAMEGROUP_NAME)?;
        c.u32(NAMEGROUP_TARGET)?;
        c.u32(NAMEGROUP_CLASS)?;
        let n = c.u32(NAMEGROUP_NDATUM)?;
        read_nested::<NameDatum>(c, n, &())?;
        Ok(())
    }

    fn dangling_in<N: Names>(view: &NameGroupView<'_>, names: &N) -> Option<Fault> {
        let place = name_end(view.bytes, view.place);
        let own = first_dangling(
            names,
            &[
                Mention::new(NAMEGROUP_TARGET, place, Types, view.target()),
                Mention::new(NAMEGROUP_CLASS, place + 4, Classes, view.class()),
            ],
        );
        match own {
            Some(fault) => Some(fault),
            None => dangling_default(view.data(), names),
        }
    }
}

// The first default that no primary record declares, as a fault at its field.
fn dangling_default<N: Names>(run: NestedRecords<'_, NameDatum>, names: &N) -> Option<Fault>
    ensures { result ≡ dangling_of (N.named names.now) (map name_datum_reference run.entry) }
{
    for datum in run {
        match datum.dangling(names) {
            Some(fault) => return Some(fault),
            None => {}
        }
    }
    None
}

/// The group at the cursor, which then stands behind it. Takes no memory. `BadName` where the name is empty or
/// has a byte 0.
pub fn read_name_group_entry<'a>(c: &mut Cursor<'a>) -> Result<NameGroupView<'a>, Fault>
    ensures exact { Answers (λ group. group.value) result name_group_at c.old c.new }
    ensures stands { IfOk result (λ trans. HasNameGroup c.old.bytes c.old.place × (trans ≡ record { place = c.old.place; value = name_group_in c.old.bytes c.old.place })) }
{
    read_transition::<NameGroupRec>(c)
}
