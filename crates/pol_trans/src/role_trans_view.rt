//! A role transition in the buffer, and how it is read.

ghost use Rattle.std.specs.Prelude.{◌≡◌, IfOk};
ghost use Rattle.pol_cursor.specs.Outcome.{Answers};
ghost use Rattle.pol_trans.specs.RoleTransRecord.{role_trans_at, role_trans_in, HasRoleTrans, role_trans_references};

use crate::role_trans_rec::RoleTransRec;
use crate::transition::{Stored, Transition, TransitionView, read_transition};
use pol_cursor::{Cursor, Mention, Names, first_dangling, u32_in};
use pol_fields::Fault;
use pol_fields::TableKind::{Classes, Roles, Types};
use pol_fields::fields::{ROLETRANS_CLASS, ROLETRANS_NEWROLE, ROLETRANS_ROLE, ROLETRANS_TYPE};
use std::alloc::{AllocError, Global};

/// A role transition in the buffer.
pub type RoleTransView<'a> = TransitionView<'a, RoleTransRec>;

impl<'a> RoleTransView<'a> {
    /// The value of the role that changes.
    pub fn role(&self) -> u32
        ensures { result ≡ self.now.value.role }
    {
        u32_in(self.bytes, self.place as usize)
    }

    /// The value of the type that is run.
    pub fn type_value(&self) -> u32
        ensures { result ≡ self.now.value.type_value }
    {
        u32_in(self.bytes, self.place as usize + 4)
    }

    /// The value of the role that it changes to.
    pub fn newrole(&self) -> u32
        ensures { result ≡ self.now.value.newrole }
    {
        u32_in(self.bytes, self.place as usize + 8)
    }

    /// The value of the class of the new object.
    pub fn class(&self) -> u32
        ensures { result ≡ self.now.value.class }
    {
        u32_in(self.bytes, self.place as usize + 12)
    }
}

impl Stored for RoleTransRec {
    ghost standing = { role_trans_in };

    ghost has = { HasRoleTrans };

    fn copy_of(view: &RoleTransView<'_>, _alloc: Global) -> Result<RoleTransRec, AllocError> {
        Ok(RoleTransRec {
            role: view.role(),
            type_value: view.type_value(),
            newrole: view.newrole(),
            class: view.class(),
        })
    }
}

impl Transition for RoleTransRec {
    ghost reads = { role_trans_at };

    ghost references = { role_trans_references };

    #[tactic(auto, unfolding(crate::specs::RoleTransRecord::role_trans_at), using(pol_cursor::proofs::Facts::number_is))]
    fn pass(c: &mut Cursor<'_>) -> Result<(), Fault> {
        c.u32(ROLETRANS_ROLE)?;
        c.u32(ROLETRANS_TYPE)?;
        c.u32(ROLETRANS_NEWROLE)?;
        c.u32(ROLETRANS_CLASS)?;
        Ok(())
    }

    fn dangling_in<N: Names>(view: &RoleTransView<'_>, names: &N) -> Option<Fault> {
        first_dangling(
            names,
            &[
                Mention::new(ROLETRANS_ROLE, view.place, Roles, view.role()),
                Mention::new(ROLETRANS_TYPE, view.place + 4, Types, view.type_value()),
                Mention::new(ROLETRANS_NEWROLE, view.place + 8, Roles, view.newrole()),
                Mention::new(ROLETRANS_CLASS, view.place + 12, Classes, view.class()),
            ],
        )
    }
}

/// The role transition at the cursor, which then stands behind it. Takes no memory.
pub fn read_role_trans_entry<'a>(c: &mut Cursor<'a>) -> Result<RoleTransView<'a>, Fault>
    ensures exact { Answers (λ trans. trans.value) result role_trans_at c.old c.new }
    ensures stands { IfOk result (λ trans. HasRoleTrans c.old.bytes c.old.place × (trans ≡ record { place = c.old.place; value = role_trans_in c.old.bytes c.old.place })) }
{
    read_transition::<RoleTransRec>(c)
}
