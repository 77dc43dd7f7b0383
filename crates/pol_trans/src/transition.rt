//! What transitions and role allows have in common: a view, the kind that their lists are made of, and a reader.

ghost use Rattle.std.specs.Prelude.{◌≡◌, ◌≤◌, ℕ, List, IfOk, OnOk, length};
ghost use Rattle.pol_fields.specs.declared.limits.TheConstants.{MAX_POLICY_BYTES};
ghost use Rattle.pol_cursor.specs.Outcome.{Reader, Answers};
ghost use Rattle.pol_cursor.specs.References.{Placed, Reference, dangling_of};

use pol_cursor::{Copied, Cursor, Names, ReadAlone, Record, RecordView, Referring};
use pol_fields::Fault;
use std::alloc::{AllocError, Global};
use std::marker::{Model, PhantomData};

/// A record, owned, that can stand in the buffer and be copied out of it.
pub trait Stored: Drop {
    /// The record that stands at a place.
    ghost standing: { List ℕ → ℕ → Self };

    /// The bytes of a record stand at a place.
    ghost has: { List ℕ → ℕ → Type 0 };

    /// The record that a view shows, owned.
    fn copy_of(view: &TransitionView<'_, Self>, alloc: Global) -> Result<Self, AllocError>
        ensures { IfOk result (λ owned. owned ≡ view.now.value) };
}

/// A record in the buffer. Contracts see it with its place.
#[derive(Drop)]
pub struct TransitionView<'a, R: Stored> {
    pub(crate) bytes: &'a [u8],
    pub(crate) place: u32,
    pub(crate) owned: PhantomData<R>,
}

impl<'a, R: Stored> Model for TransitionView<'a, R> {
    ghost use Rattle.pol_cursor.specs.References.{Placed};

    ghost Value = { Placed R };

    ghost view = { λ v. record { place = v.place; value = R.standing v.bytes.now v.place } };

    ghost invariant = { λ v. R.has v.bytes.now v.place };
}

impl<'a, R: Stored> TransitionView<'a, R> {
    /// The record, owned.
    pub fn rec(&self, alloc: Global) -> Result<R, AllocError>
        ensures { IfOk result (λ owned. owned ≡ self.now.value) }
    {
        R::copy_of(self, alloc)
    }
}

/// A record that stands in a list of the policy, and that names symbols.
pub trait Transition: Stored {
    /// How it is read.
    ghost reads: { Reader Self };

    /// The references of a record, in file order.
    ghost references: { Placed Self → List Reference };

    /// Passes over the record at the cursor, in a buffer of a policy's size, which then stands behind it. Takes no memory.
    fn pass(c: &mut Cursor<'_>) -> Result<(), Fault>
        requires { length c.old.bytes ≤ MAX_POLICY_BYTES }
        ensures exact { Answers (λ _. Self.standing c.old.bytes c.old.place) result reads c.old c.new }
        ensures stands { OnOk result (Self.has c.old.bytes c.old.place) };

    /// The first reference of the record that a view shows, as a fault at its field, that no primary record declares.
    fn dangling_in<N: Names>(view: &TransitionView<'_, Self>, names: &N) -> Option<Fault>
        ensures { result ≡ dangling_of (N.named names.now) (references view.now) };
}

impl<'a, R: Transition> TransitionView<'a, R> {
    /// The first reference, in file order, whose value no primary record declares, as a fault at its field.
    pub fn dangling<N: Names>(&self, names: &N) -> Option<Fault>
        ensures { result ≡ dangling_of (N.named names.now) (R.references self.now) }
    {
        R::dangling_in(self, names)
    }
}

/// The record at the cursor, which then stands behind it. Takes no memory.
pub fn read_transition<'a, R: Transition>(
    c: &mut Cursor<'a>,
) -> Result<TransitionView<'a, R>, Fault>
    ensures exact { Answers (λ view. view.value) result R.reads c.old c.new }
    ensures stands { IfOk result (λ view. R.has c.old.bytes c.old.place × (view ≡ record { place = c.old.place; value = R.standing c.old.bytes c.old.place })) }
{
    let bytes = c.bytes();
    let place = c.place();
    R::pass(c)?;
    Ok(TransitionView {
        bytes,
        place,
        owned: PhantomData,
    })
}

/// The kind of records of which R is the owned form.
#[derive(Drop)]
pub struct TransitionKind<R: Stored> {
    owned: PhantomData<R>,
}

impl<R: Stored> Record for TransitionKind<R> {
    type Owned = R;

    ghost standing = { R.standing };

    ghost has = { R.has };
}

impl<R: Transition> ReadAlone for TransitionKind<R> {
    ghost reads = { R.reads };

    fn pass(c: &mut Cursor<'_>) -> Result<(), Fault> {
        read_transition::<R>(c)?;
        Ok(())
    }
}

impl<'a, R: Stored> RecordView<'a> for TransitionKind<R> {
    type View = TransitionView<'a, R>;

    ghost shown = { λ view. view };

    fn at(bytes: &'a [u8], place: u32) -> TransitionView<'a, R> {
        TransitionView {
            bytes,
            place,
            owned: PhantomData,
        }
    }
}

impl<'a, R: Stored> Copied<'a> for TransitionKind<R> {
    fn rec(view: &Self::View, alloc: Global) -> Result<Self::Owned, AllocError> {
        R::copy_of(view, alloc)
    }
}

impl<'a, R: Transition> Referring<'a> for TransitionKind<R> {
    ghost references = { R.references };

    fn dangling<N: Names>(view: &Self::View, names: &N) -> Option<Fault> {
        R::dangling_in(view, names)
    }
}
