//! A context in the buffer, and how it is read.

ghost use Rattle.std.specs.Prelude.{◌≡◌, ◌+◌, IfOk, OnOk};
ghost use Rattle.pol_cursor.specs.Outcome.{Answers};
ghost use Rattle.pol_cursor.specs.References.{dangling_of};
ghost use Rattle.pol_mls.specs.ContextRecord.{context_at, context_in, context_end, HasContext, context_references};

use crate::context_rec::ContextRec;
use crate::range_view::{RangeView, read_range};
use pol_cursor::{Cursor, Mention, Names, first_dangling, u32_in};
use pol_fields::Fault;
use pol_fields::TableKind::{Roles, Types, Users};
use pol_fields::fields::{CONTEXT_ROLE, CONTEXT_TYPE, CONTEXT_USER};
use std::alloc::{AllocError, Global};
use std::marker::Model;

/// A security context in the buffer.
#[derive(Drop)]
pub struct ContextView<'a> {
    bytes: &'a [u8],
    place: u32,
}

impl<'a> Model for ContextView<'a> {
    ghost use Rattle.pol_cursor.specs.References.{Placed};
    ghost use Rattle.pol_mls.specs.declared.context_rec.ContextRec.{ContextRec};
    ghost use Rattle.pol_mls.specs.ContextRecord.{context_in, HasContext};

    ghost Value = { Placed ContextRec };

    ghost view = { λ v. record { place = v.place; value = context_in v.bytes.now v.place } };

    ghost invariant = { λ v. HasContext v.bytes.now v.place };
}

impl<'a> ContextView<'a> {
    /// The context at a place that has one.
    pub fn at(bytes: &'a [u8], place: u32) -> ContextView<'a>
        requires { HasContext bytes.now place }
        ensures { result ≡ record { place = place; value = context_in bytes.now place } }
    {
        ContextView { bytes, place }
    }

    /// The value of the user.
    pub fn user(&self) -> u32
        ensures { result ≡ self.now.value.user }
    {
        u32_in(self.bytes, self.place as usize)
    }

    /// The value of the role.
    pub fn role(&self) -> u32
        ensures { result ≡ self.now.value.role }
    {
        u32_in(self.bytes, self.place as usize + 4)
    }

    /// The value of the type.
    pub fn type_value(&self) -> u32
        ensures { result ≡ self.now.value.type_value }
    {
        u32_in(self.bytes, self.place as usize + 8)
    }

    /// The range of levels.
    pub fn range(&self) -> RangeView<'a>
        ensures { result ≡ record { place = self.now.place + 12; value = self.now.value.range } }
    {
        RangeView::at(self.bytes, self.place + 12)
    }

    /// The first of user, role, type and sensitivities as a fault at its field, where no primary record declares it.
    pub fn dangling<N: Names>(&self, names: &N) -> Option<Fault>
        ensures { result ≡ dangling_of (N.named names.now) (context_references self.now) }
    {
        let own = first_dangling(
            names,
            &[
                Mention::new(CONTEXT_USER, self.place, Users, self.user()),
                Mention::new(CONTEXT_ROLE, self.place + 4, Roles, self.role()),
                Mention::new(CONTEXT_TYPE, self.place + 8, Types, self.type_value()),
            ],
        );
        match own {
            Some(fault) => Some(fault),
            None => self.range().dangling(names),
        }
    }

    /// The context, owned.
    pub fn rec(&self, alloc: Global) -> Result<ContextRec, AllocError>
        ensures { IfOk result (λ context. context ≡ self.now.value) }
    {
        Ok(ContextRec {
            user: self.user(),
            role: self.role(),
            type_value: self.type_value(),
            range: self.range().rec(alloc)?,
        })
    }
}

/// The place behind the context at a place.
#[tactic(auto, using(crate::proofs::ContextPlaces::context_ends))]
pub fn context_end(bytes: &[u8], place: u32) -> u32
    requires { HasContext bytes.now place }
    ensures { result ≡ context_end bytes.now place }
{
    place + 12 + RangeView::at(bytes, place + 12).size()
}

/// The context at the cursor, which then stands behind it. Takes no memory. The faults are `Short` and those of `read_range`.
#[tactic(auto, unfolding(crate::specs::ContextRecord::context_at), using(pol_cursor::proofs::Facts::number_is))]
pub fn read_context<'a>(c: &mut Cursor<'a>) -> Result<ContextView<'a>, Fault>
    ensures exact { Answers (λ context. context.value) result context_at c.old c.new }
    ensures stands { IfOk result (λ context. HasContext c.old.bytes c.old.place × (context ≡ record { place = c.old.place; value = context_in c.old.bytes c.old.place })) }
    ensures next { OnOk result (c.new.place ≡ context_end c.old.bytes c.old.place) }
{
    let bytes = c.bytes();
    let place = c.place();
    c.u32(CONTEXT_USER)?;
    c.u32(CONTEXT_ROLE)?;
    c.u32(CONTEXT_TYPE)?;
    read_range(c)?;
    Ok(ContextView { bytes, place })
}
