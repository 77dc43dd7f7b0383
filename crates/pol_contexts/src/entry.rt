//! What the entries of the nine tables have in common: a view, and the kind that a table's list is made of.

ghost use Rattle.std.specs.Prelude.{◌≡◌, ℕ, List, IfOk};
ghost use Rattle.pol_cursor.specs.Outcome.{Answers};
ghost use Rattle.pol_cursor.specs.References.{Placed, Reference, dangling_of};

use pol_cursor::{Copied, Cursor, Names, ReadAlone, Record, RecordView, Referring};
use pol_fields::Fault;
use std::alloc::{AllocError, Global};
use std::marker::{Model, PhantomData};

/// An entry that can stand in the buffer.
pub trait Standing {
    /// The entry that stands at a place.
    ghost standing: { List ℕ → ℕ → Self };

    /// The bytes of an entry stand at a place.
    ghost has: { List ℕ → ℕ → Type 0 };
}

/// An entry in the buffer. Contracts see it with its place.
#[derive(Drop)]
pub struct EntryView<'a, R: Standing + Drop> {
    pub(crate) bytes: &'a [u8],
    pub(crate) place: u32,
    entry: PhantomData<R>,
}

impl<'a, R: Standing + Drop> Model for EntryView<'a, R> {
    ghost use Rattle.pol_cursor.specs.References.{Placed};

    ghost Value = { Placed R };

    ghost view = { λ v. record { place = v.place; value = R.standing v.bytes.now v.place } };

    ghost invariant = { λ v. R.has v.bytes.now v.place };
}

impl<'a, R: Standing + Drop> EntryView<'a, R> {
    /// The entry at a place that has one.
    pub fn at(bytes: &'a [u8], place: u32) -> EntryView<'a, R>
        requires { R.has bytes.now place }
        ensures { result ≡ record { place = place; value = R.standing bytes.now place } }
    {
        EntryView {
            bytes,
            place,
            entry: PhantomData,
        }
    }
}

/// An entry that can be copied out of the buffer, and that names symbols.
pub trait Entry: Standing + Drop {
    ghost use Rattle.std.specs.Prelude.{◌≡◌, List, IfOk};
    ghost use Rattle.pol_cursor.specs.References.{Placed, Reference, dangling_of};

    /// The references of an entry, in file order.
    ghost references: { Placed Self → List Reference };

    /// The entry that a view shows, owned.
    fn copy_of(view: &EntryView<'_, Self>, alloc: Global) -> Result<Self, AllocError>
        ensures { IfOk result (λ entry. entry ≡ view.now.value) };

    /// The first reference of the entry that a view shows, as a fault at its field, that no primary record declares.
    fn dangling_in<N: Names>(view: &EntryView<'_, Self>, names: &N) -> Option<Fault>
        ensures { result ≡ dangling_of (N.named names.now) (references view.now) };
}

impl<'a, R: Entry> EntryView<'a, R> {
    /// The first reference, as a fault at its field, that no primary record declares.
    pub fn dangling<N: Names>(&self, names: &N) -> Option<Fault>
        ensures { result ≡ dangling_of (N.named names.now) (R.references self.now) }
    {
        R::dangling_in(self, names)
    }

    /// The entry, owned.
    pub fn rec(&self, alloc: Global) -> Result<R, AllocError>
        ensures { IfOk result (λ entry. entry ≡ self.now.value) }
    {
        R::copy_of(self, alloc)
    }
}

/// The kind of the entries of one table of contexts, by libsepol's number of it, as `OCON_PORT`.
#[derive(Drop)]
pub struct EntryKind<R, const TABLE: u8> {
    entry: PhantomData<R>,
}

impl<R: Standing, const TABLE: u8> Record for EntryKind<R, TABLE> {
    type Owned = R;

    ghost standing = { R.standing };

    ghost has = { R.has };
}

impl<'a, R: Standing + Drop, const TABLE: u8> RecordView<'a> for EntryKind<R, TABLE> {
    type View = EntryView<'a, R>;

    ghost shown = { λ v. v };

    fn at(bytes: &'a [u8], place: u32) -> EntryView<'a, R> {
        EntryView::at(bytes, place)
    }
}

impl<'a, R: Entry, const TABLE: u8> Copied<'a> for EntryKind<R, TABLE> {
    fn rec(view: &Self::View, alloc: Global) -> Result<Self::Owned, AllocError> {
        view.rec(alloc)
    }
}

impl<'a, R: Entry, const TABLE: u8> Referring<'a> for EntryKind<R, TABLE> {
    ghost references = { R.references };

    fn dangling<N: Names>(view: &Self::View, names: &N) -> Option<Fault> {
        view.dangling(names)
    }
}

/// The entry at the cursor, which then stands behind it. Takes no memory.
pub fn read_entry<'a, K: RecordView<'a> + ReadAlone>(c: &mut Cursor<'a>) -> Result<K::View, Fault>
    ensures exact { Answers (λ entry. (K.shown entry).value) result K.reads c.old c.new }
    ensures stands { IfOk result (λ entry. K.has c.old.bytes c.old.place × (K.shown entry ≡ record { place = c.old.place; value = K.standing c.old.bytes c.old.place })) }
{
    let bytes = c.bytes();
    let place = c.place();
    K::pass(c)?;
    Ok(K::at(bytes, place))
}
