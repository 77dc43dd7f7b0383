//! A role allow in the buffer, and how it is read.

ghost use Rattle.std.specs.Prelude.{◌≡◌, IfOk};
ghost use Rattle.pol_cursor.specs.Outcome.{Answers};
ghost use Rattle.pol_trans.specs.RoleAllowRecord.{role_allow_at, role_allow_in, HasRoleAllow, role_allow_references};

use crate::role_allow_rec::RoleAllowRec;
use crate::transition::{Stored, Transition, TransitionView, read_transition};
use pol_cursor::{Cursor, Mention, Names, first_dangling, u32_in};
use pol_fields::Fault;
use pol_fields::TableKind::Roles;
use pol_fields::fields::{ROLEALLOW_NEWROLE, ROLEALLOW_ROLE};
use std::alloc::{AllocError, Global};

/// A role allow in the buffer.
pub type RoleAllowView<'a> = TransitionView<'a, RoleAllowRec>;

impl<'a> RoleAllowView<'a> {
    /// The value of the role that may change.
    pub fn role(&self) -> u32
        ensures { result ≡ self.now.value.role }
    {
        u32_in(self.bytes, self.place as usize)
    }

    /// The value of the role that it may change to.
    pub fn newrole(&self) -> u32
        ensures { result ≡ self.now.value.newrole }
    {
        u32_in(self.bytes, self.place as usize + 4)
    }
}

impl Stored for RoleAllowRec {
    ghost standing = { role_allow_in };

    ghost has = { HasRoleAllow };

    fn copy_of(view: &RoleAllowView<'_>, _alloc: Global) -> Result<RoleAllowRec, AllocError> {
        Ok(RoleAllowRec {
            role: view.role(),
            newrole: view.newrole(),
        })
    }
}

impl Transition for RoleAllowRec {
    ghost reads = { role_allow_at };

    ghost references = { role_allow_references };

    #[tactic(auto, unfolding(crate::specs::RoleAllowRecord::role_allow_at), using(pol_cursor::proofs::Facts::number_is))]
    fn pass(c: &mut Cursor<'_>) -> Result<(), Fault> {
        c.u32(ROLEALLOW_ROLE)?;
        c.u32(ROLEALLOW_NEWROLE)?;
        Ok(())
    }

    fn dangling_in<N: Names>(view: &RoleAllowView<'_>, names: &N) -> Option<Fault> {
        first_dangling(
            names,
            &[
                Mention::new(ROLEALLOW_ROLE, view.place, Roles, view.role()),
                Mention::new(ROLEALLOW_NEWROLE, view.place + 4, Roles, view.newrole()),
            ],
        )
    }
}

/// The role allow at the cursor, which then stands behind it. Takes no memory.
pub fn read_role_allow_entry<'a>(c: &mut Cursor<'a>) -> Result<RoleAllowView<'a>, Fault>
    ensures exact { Answers (λ allow. allow.value) result role_allow_at c.old c.new }
    ensures stands { IfOk result (λ allow. HasRoleAllow c.old.bytes c.old.place × (allow ≡ record { place = c.old.place; value = role_allow_in c.old.bytes c.old.place })) }
{
    read_transition::<RoleAllowRec>(c)
}
