// What the kinds of records of this crate share: the view of a record, and its place in a symbol table.
ghost use Rattle.std.specs.Prelude.{◌≡◌, ℕ, Bool, List, Some, None, IfOk, if◌then◌else◌};
ghost use Rattle.pol_cursor.specs.Outcome.{Reader, Answers};
ghost use Rattle.pol_cursor.specs.References.{dangling_of};
ghost use Rattle.pol_symtab.specs.Claims.{Claims};
ghost use Rattle.pol_symtab.specs.Inner.Freshness.{Gives, IsFresh};

use pol_cursor::{
    Copied, Cursor, Names, ReadAfter, ReadError, Record, RecordView, Referring, Written,
};
use pol_fields::Fault;
use pol_symtab::{Symbol, SymbolKind, TableContext};
use std::alloc::{AllocError, Global};
use std::marker::{Model, PhantomData};

/// A record of a symbol table, owned, which is read under the claims of the records before it.
pub trait Datum: Written + Drop {
    /// The record that stands at a place.
    ghost standing: { List ℕ → ℕ → Self };

    /// The bytes of a record stand at a place.
    ghost has: { List ℕ → ℕ → Type 0 };

    /// How it is read, under what the records before it have taken and the greatest value of the table.
    ghost reads: { Claims → ℕ → Reader Self };

    /// The name of a record.
    ghost name_of: { Self → List ℕ };

    /// The value that it names.
    ghost value_of: { Self → ℕ };

    /// Whether it is primary, and so no alias.
    ghost is_primary: { Self → Bool };

    /// What the members of a record have to be for the bytes to say them.
    ghost fits: { Self → Type 0 };

    /// The record at the cursor, which then stands behind it. Takes no memory.
    fn read<'a>(
        c: &mut Cursor<'a>,
        context: &TableContext<'a>,
    ) -> Result<DatumView<'a, Self>, Fault>
        ensures exact { Answers (λ view. view.value) result (reads context.now.taken context.now.nprim) c.old c.new }
        ensures stands { IfOk result (λ view. has c.old.bytes c.old.place × (view ≡ record { place = c.old.place; value = standing c.old.bytes c.old.place })) };

    /// The name of a record.
    fn name<'a>(view: &DatumView<'a, Self>) -> &'a [u8]
        ensures { result.now ≡ name_of view.now.value };

    /// The value that it names.
    fn value(view: &DatumView<'_, Self>) -> u32
        ensures { result ≡ value_of view.now.value };

    /// Whether it is primary, and so no alias.
    fn is_primary(view: &DatumView<'_, Self>) -> bool
        ensures { result ≡ is_primary view.now.value };

    /// A record is refused unless its name is new and, where it is primary, its value is new and 1 to nprim.
    ghost fresh: { (claims : Claims) (nprim : ℕ) → Gives (reads claims nprim) (λ x. IsFresh nprim claims (name_of x) (is_primary x) (value_of x)) };
}

/// A record that can be copied out of the buffer.
pub trait CopiedDatum: Datum {
    /// The record that a view shows, owned.
    fn rec(view: &DatumView<'_, Self>, alloc: Global) -> Result<Self, AllocError>
        ensures { IfOk result (λ owned. owned ≡ view.now.value) };
}

/// A record that refers to values of the symbol tables.
pub trait ReferringDatum: Datum {
    ghost use Rattle.std.specs.Prelude.{List};
    ghost use Rattle.pol_cursor.specs.References.{Placed, Reference};

    /// The references of a record, in file order.
    ghost references: { Placed Self → List Reference };

    /// The first of them whose value no primary record declares, as a fault at its field. Takes no memory.
    fn dangling<N: Names>(view: &DatumView<'_, Self>, names: &N) -> Option<Fault>
        ensures { result ≡ dangling_of (N.named names.now) (references view.now) };
}

/// A record in the buffer, by its place. Contracts see the record and its place.
#[derive(Drop)]
pub struct DatumView<'a, R: Datum> {
    pub(crate) bytes: &'a [u8],
    pub(crate) place: u32,
    pub(crate) kind: PhantomData<R>,
}

impl<'a, R: Datum> Model for DatumView<'a, R> {
    ghost use Rattle.pol_cursor.specs.References.{Placed};

    ghost Value = { Placed R };

    ghost view = { λ v. record { place = v.place; value = R.standing v.bytes.now v.place } };

    ghost invariant = { λ v. R.has v.bytes.now v.place };
}

impl<'a, R: Datum> DatumView<'a, R> {
    /// The record at a place that has one.
    pub fn at(bytes: &'a [u8], place: u32) -> DatumView<'a, R>
        requires { R.has bytes.now place }
        ensures { result ≡ record { place = place; value = R.standing bytes.now place } }
    {
        DatumView {
            bytes,
            place,
            kind: PhantomData,
        }
    }

    /// The name of the record.
    pub fn name(&self) -> &'a [u8]
        ensures { result.now ≡ R.name_of self.now.value }
    {
        R::name(self)
    }

    /// The value of the record. An alias has that of the record that it stands for.
    pub fn value(&self) -> u32
        ensures { result ≡ R.value_of self.now.value }
    {
        R::value(self)
    }

    /// Whether it declares its value, which an alias does not.
    pub fn is_primary(&self) -> bool
        ensures { result ≡ R.is_primary self.now.value }
    {
        R::is_primary(self)
    }
}

/// The kind of records of which R is the owned form.
#[derive(Drop)]
pub struct DatumKind<R: Datum> {
    owned: PhantomData<R>,
}

impl<R: Datum> Record for DatumKind<R> {
    type Owned = R;

    ghost standing = { R.standing };

    ghost has = { R.has };
}

impl<'a, R: Datum> RecordView<'a> for DatumKind<R> {
    type View = DatumView<'a, R>;

    ghost shown = { λ v. v };

    fn at(bytes: &'a [u8], place: u32) -> DatumView<'a, R> {
        DatumView::at(bytes, place)
    }
}

impl<'a, R: Datum> ReadAfter<'a> for DatumKind<R> {
    ghost use Rattle.pol_symtab.specs.Claims.{claims_after};

    type Context = TableContext<'a>;

    ghost reads = { λ context. R.reads context.taken context.nprim };

    ghost after = { λ context x. record context { taken = claims_after context.taken (R.name_of x) (R.is_primary x) (R.value_of x) } };

    fn pass(c: &mut Cursor<'a>, context: TableContext<'a>) -> Result<TableContext<'a>, ReadError> {
        let view = R::read(c, &context)?;
        let mut context = context;
        context.taken.add(view.name(), declared_value(&view))?;
        Ok(context)
    }
}

// The value that a record declares, which is none for an alias.
fn declared_value<R: Datum>(view: &DatumView<'_, R>) -> Option<u32>
    ensures { result ≡ (if R.is_primary view.now.value then Some (R.value_of view.now.value) else None) }
{
    if view.is_primary() {
        Some(view.value())
    } else {
        None
    }
}

impl<R: Datum> SymbolKind for DatumKind<R> {
    ghost name_of = { R.name_of };

    ghost value_of = { R.value_of };

    ghost is_primary = { R.is_primary };

    ghost spelling = { R.spelling };

    ghost fits = { R.fits };
}

impl<'a, R: Datum> Symbol<'a> for DatumKind<R> {
    ghost use Rattle.std.specs.Prelude.{refl};

    ghost nprim_of = { λ context. context.nprim };

    ghost claims_of = { λ context. context.taken };

    fn name(view: &DatumView<'a, R>) -> &'a [u8] {
        view.name()
    }

    fn value(view: &DatumView<'a, R>) -> u32 {
        view.value()
    }

    fn is_primary(view: &DatumView<'a, R>) -> bool {
        view.is_primary()
    }

    ghost fresh = { λ context. R.fresh context.taken context.nprim };

    ghost claimed = { λ context x. (refl, refl) };
}

impl<'a, R: CopiedDatum> Copied<'a> for DatumKind<R> {
    fn rec(view: &DatumView<'a, R>, alloc: Global) -> Result<R, AllocError> {
        R::rec(view, alloc)
    }
}

impl<'a, R: ReferringDatum> Referring<'a> for DatumKind<R> {
    ghost references = { R.references };

    fn dangling<N: Names>(view: &DatumView<'a, R>, names: &N) -> Option<Fault> {
        R::dangling(view, names)
    }
}
