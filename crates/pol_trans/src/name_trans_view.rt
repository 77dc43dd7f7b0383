//! A file-name transition in the buffer, and how it is read.

ghost use Rattle.std.specs.Prelude.{◌≡◌, IfOk};
ghost use Rattle.pol_cursor.specs.Outcome.{Answers};
ghost use Rattle.pol_trans.specs.NameTransRecord.{name_trans_at, name_trans_in, HasNameTrans, name_trans_references};

use crate::name_trans_rec::NameTransRec;
use crate::transition::{Stored, Transition, TransitionView, read_transition};
use pol_cursor::{
    ByteList, Cursor, Mention, Names, first_dangling, name_end, name_standing, read_name, u32_in,
};
use pol_fields::Fault;
use pol_fields::TableKind::{Classes, Types};
use pol_fields::fields::{
    NAMETRANS_CLASS, NAMETRANS_DEFAULT, NAMETRANS_LEN, NAMETRANS_NAME, NAMETRANS_SOURCE,
    NAMETRANS_TARGET,
};
use std::alloc::{AllocError, Global};

/// A file-name transition in the buffer.
pub type NameTransView<'a> = TransitionView<'a, NameTransRec>;

impl<'a> NameTransView<'a> {
    /// The name of the new object: one byte or more, none of them 0.
    pub fn name(&self) -> &'a [u8]
        ensures { result.now ≡ self.now.value.name }
    {
        name_standing(self.bytes, self.place)
    }

    /// The value of the type that makes the object.
    pub fn source(&self) -> u32
        ensures { result ≡ self.now.value.source }
    {
        u32_in(self.bytes, name_end(self.bytes, self.place) as usize)
    }

    /// The value of the type that the object is made in.
    pub fn target(&self) -> u32
        ensures { result ≡ self.now.value.target }
    {
        u32_in(self.bytes, name_end(self.bytes, self.place) as usize + 4)
    }

    /// The value of the class of the new object.
    pub fn class(&self) -> u32
        ensures { result ≡ self.now.value.class }
    {
        u32_in(self.bytes, name_end(self.bytes, self.place) as usize + 8)
    }

    /// The value of the type that the new object has.
    pub fn default(&self) -> u32
        ensures { result ≡ self.now.value.default }
    {
        u32_in(self.bytes, name_end(self.bytes, self.place) as usize + 12)
    }
}

impl Stored for NameTransRec {
    ghost standing = { name_trans_in };

    ghost has = { HasNameTrans };

    fn copy_of(view: &NameTransView<'_>, alloc: Global) -> Result<NameTransRec, AllocError> {
        Ok(NameTransRec {
            name: ByteList::copy_of(alloc, view.name())?,
            source: view.source(),
            target: view.target(),
            class: view.class(),
            default: view.default(),
        })
    }
}

impl Transition for NameTransRec {
    ghost reads = { name_trans_at };

    ghost references = { name_trans_references };

    // `BadName` where the name is empty or has a byte 0.
    #[tactic(auto, unfolding(crate::specs::NameTransRecord::name_trans_at), using(pol_cursor::proofs::Facts::number_is, pol_cursor::proofs::Facts::string_is))]
    fn pass(c: &mut Cursor<'_>) -> Result<(), Fault> {
        read_name(c, NAMETRANS_LEN, NAMETRANS_NAME)?;
        c.u32(NAMETRANS_SOURCE)?;
        c.u32(NAMETRANS_TARGET)?;
        c.u32(NAMETRANS_CLASS)?;
        c.u32(NAMETRANS_DEFAULT)?;
        Ok(())
    }

    fn dangling_in<N: Names>(view: &NameTransView<'_>, names: &N) -> Option<Fault> {
        let place = name_end(view.bytes, view.place);
        first_dangling(
            names,
            &[
                Mention::new(NAMETRANS_SOURCE, place, Types, view.source()),
                Mention::new(NAMETRANS_TARGET, place + 4, Types, view.target()),
                Mention::new(NAMETRANS_CLASS, place + 8, Classes, view.class()),
                Mention::new(NAMETRANS_DEFAULT, place + 12, Types, view.default()),
            ],
        )
    }
}

/// The file-name transition at the cursor, which then stands behind it. Takes no memory. `BadName` where the name is empty or
/// has a byte 0.
pub fn read_name_trans_entry<'a>(c: &mut Cursor<'a>) -> Result<NameTransView<'a>, Fault>
    ensures exact { Answers (λ trans. trans.value) result name_trans_at c.old c.new }
    ensures stands { IfOk result (λ trans. HasNameTrans c.old.bytes c.old.place × (trans ≡ record { place = c.old.place; value = name_trans_in c.old.bytes c.old.place })) }
{
    read_transition::<NameTransRec>(c)
}
