// Lists of records in the buffer, generic in the record.
ghost use Rattle.std.specs.Prelude.{◌≡◌, ◌<◌, ◌+◌, ◌*◌, ◌^◌, ◌++◌, [], ℕ, List, Some, IfOk, OnOk, map, slice_get, length};
ghost use Rattle.std.specs.List.{AllByRecursion};
ghost use Rattle.pol_cursor.specs.Outcome.{Outcome, Answers, Yields};
ghost use Rattle.pol_cursor.specs.Parts.{counted, records_at};
ghost use Rattle.pol_cursor.specs.Contexts.{context_after, records_after};
ghost use Rattle.pol_cursor.specs.Inner.EvenPlaces.{even_places};
ghost use Rattle.pol_cursor.specs.References.{placed};

use crate::even_places::EvenPlaces;
use crate::{Cursor, ReadError};
use pol_fields::{Fault, Field};
use std::alloc::Global;
use std::marker::{Model, PhantomData};

/// A kind of record.
pub trait Record {
    /// The record, owned.
    type Owned;

    /// The record that stands at a place.
    ghost standing: { List ℕ → ℕ → Self.Owned };

    /// The bytes of a record stand at a place.
    ghost has: { List ℕ → ℕ → Type 0 };
}

/// A kind of record which is read without regard to the records before it.
pub trait ReadAlone: Record {
    /// How it is read.
    ghost reads: { List ℕ → ℕ → Outcome Self.Owned };

    /// Passes over the record at the cursor, which then stands behind it. Takes no memory.
    fn pass(c: &mut Cursor<'_>) -> Result<(), Fault>
        ensures exact { Answers (λ _. Self.standing c.old.bytes c.old.place) result reads c.old c.new }
        ensures stands { OnOk result (Self.has c.old.bytes c.old.place) };
}

/// A kind of record which is read under what the records before it made of a context: the names that they took, say.
pub trait ReadAfter<'a>: Record {
    /// The context.
    type Context: Drop;

    /// How it is read.
    ghost reads: { Self.Context → List ℕ → ℕ → Outcome Self.Owned };

    /// The context after it.
    ghost after: { Self.Context → Self.Owned → Self.Context };

    /// Passes over the record at the cursor, which then stands behind it, and answers the context after it.
    fn pass(c: &mut Cursor<'a>, context: Self::Context) -> Result<Self::Context, ReadError>
        ensures exact { Yields (λ _. Self.standing c.old.bytes c.old.place) result (reads context) c.old c.new }
        ensures stands { OnOk result (Self.has c.old.bytes c.old.place) }
        ensures after { IfOk result (λ context_new. context_new ≡ after context (Self.standing c.old.bytes c.old.place)) };
}

/// A kind of record that has a view.
pub trait RecordView<'a>: Record {
    ghost use Rattle.pol_cursor.specs.References.{Placed};

    /// The view of such a record in the buffer.
    type View;

    /// The record that a view shows, and its place.
    ghost shown: { Self.View → Placed Self.Owned };

    /// The record at a place that has one.
    fn at(bytes: &'a [u8], place: u32) -> Self::View
        requires { Self.has bytes.now place }
        ensures { shown result ≡ record { place = place; value = Self.standing bytes.now place } };
}

/// Records in the buffer, by their places. Contracts see the list of them, each with its place.
#[derive(Drop)]
pub struct Records<'a, K: Record + Drop> {
    bytes: &'a [u8],
    // The places of records that are all as long, or, in other lists, none.
    even: EvenPlaces,
    // The places of the records behind those.
    places: Vec<u32>,
    kind: PhantomData<K>,
}

impl<'a, K: Record + Drop> Model for Records<'a, K> {
    ghost use Rattle.std.specs.Prelude.{List, map, length, ◌<◌, ◌^◌, ◌++◌};
    ghost use Rattle.std.specs.List.{AllByRecursion};
    ghost use Rattle.pol_cursor.specs.References.{Placed};

    ghost Value = { List (Placed K.Owned) };

    ghost view = { λ l. map (λ place. record { place = place; value = K.standing l.bytes.now place }) (l.even ++ l.places.items) };

    ghost invariant = { λ l. AllByRecursion (K.has l.bytes.now) (l.even ++ l.places.items) × (length (l.even ++ l.places.items) < 2 ^ 32) };
}

impl<'a, K: Record + Drop> Records<'a, K> {
    /// No records.
    pub fn empty(alloc: Global, bytes: &'a [u8]) -> Records<'a, K>
        ensures { result ≡ [] }
    {
        Records {
            bytes,
            even: EvenPlaces::none(),
            places: Vec::new(alloc),
            kind: PhantomData,
        }
    }

    /// So many records from a place on, one behind the other, each of as many bytes as `length` says.
    #[tactic(auto, using(crate::proofs::EvenPlaces::even_length, crate::proofs::EvenPlaces::nothing_behind))]
    pub fn even(
        alloc: Global,
        bytes: &'a [u8],
        place: u32,
        length: u32,
        count: u32,
    ) -> Records<'a, K>
        requires stand { AllByRecursion (K.has bytes.now) (even_places length place count) }
        requires small { place + count * length < 2 ^ 32 }
        ensures { result ≡ map (λ place. record { place = place; value = K.standing bytes.now place }) (even_places length place count) }
    {
        Records {
            bytes,
            even: EvenPlaces::new(place, length, count),
            places: Vec::new(alloc),
            kind: PhantomData,
        }
    }

    /// How many records there are.
    #[inline(always)]
    pub fn len(&self) -> u32
        ensures { result ≡ length self.now }
    {
        self.even.len() + self.places.len() as u32
    }

    /// The buffer, and the place in it of the record of that number, from 0 on.
    #[inline(always)]
    #[tactic(auto, using(crate::proofs::EvenPlaces::all_at, crate::proofs::EvenPlaces::mapped_at))]
    pub fn place(&self, i: u32) -> (&'a [u8], u32)
        requires { i < length self.now }
        ensures stands { K.has result.0.now result.1 }
        ensures same { slice_get self.now i ≡ Some (record { place = result.1; value = K.standing result.0.now result.1 }) }
    {
        let place = nth_place(&self.even, &self.places, i);
        (self.bytes, place)
    }
}

// The place of that number, from 0 on, of places that lie as far apart and others behind them.
#[inline(always)]
#[tactic(auto, using(crate::proofs::EvenPlaces::get_first, crate::proofs::EvenPlaces::get_later))]
fn nth_place(even: &EvenPlaces, places: &[u32], i: u32) -> u32
    requires { i < length (even.now ++ places.now) }
    ensures { slice_get (even.now ++ places.now) i ≡ Some result }
{
    let count = even.len();
    if i < count {
        return even.at(i);
    }
    places[(i - count) as usize]
}

impl<'a, V: RecordView<'a> + Drop> Records<'a, V> {
    /// The record of that number, from 0 on.
    #[inline(always)]
    pub fn view(&self, i: u32) -> V::View
        requires { i < length self.now }
        ensures { slice_get self.now i ≡ Some (V.shown result) }
    {
        let (bytes, place) = self.place(i);
        V::at(bytes, place)
    }
}

/// Reads n records. Nothing is reserved by the number that the policy claims.
pub fn read_records<'a, K: ReadAlone + Drop>(
    alloc: Global,
    c: &mut Cursor<'a>,
    n: u32,
) -> Result<Records<'a, K>, ReadError>
    ensures { Yields (λ records. records) result (records_at (placed K.reads) n) c.old c.new }
{
    let bytes = c.bytes();
    let mut places = Vec::new(alloc);
    for _ in 0..n {
        let place = c.place();
        K::pass(c)?;
        places.push(place)?;
    }
    Ok(Records {
        bytes,
        even: EvenPlaces::none(),
        places,
        kind: PhantomData,
    })
}

/// Reads a count, which is a field of its own, and so many records.
pub fn read_counted<'a, K: ReadAlone + Drop>(
    alloc: Global,
    c: &mut Cursor<'a>,
    count: Field,
) -> Result<Records<'a, K>, ReadError>
    ensures { Yields (λ records. records) result (counted count (records_at (placed K.reads))) c.old c.new }
{
    let n = c.u32(count)?;
    read_records(alloc, c, n)
}

/// Reads n records, each under the context that the ones before it made, and answers the last context too. Nothing is
/// reserved by the number that the policy claims.
pub fn read_records_after<'a, K: ReadAfter<'a> + Drop>(
    alloc: Global,
    c: &mut Cursor<'a>,
    n: u32,
    context: K::Context,
) -> Result<(Records<'a, K>, K::Context), ReadError>
    ensures exact { Yields (λ read. read.0) result (records_after K.reads K.after n context) c.old c.new }
    ensures after { IfOk result (λ read. read.1 ≡ context_after K.after context read.0) }
{
    let bytes = c.bytes();
    let mut context = context;
    let mut places = Vec::new(alloc);
    for _ in 0..n {
        let place = c.place();
        context = K::pass(c, context)?;
        places.push(place)?;
    }
    let records = Records {
        bytes,
        even: EvenPlaces::none(),
        places,
        kind: PhantomData,
    };
    Ok((records, context))
}
