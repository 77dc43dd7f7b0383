// Records that stand one behind the other in the buffer, each found by going through the ones before it.
ghost use Rattle.std.specs.Prelude.{◌≡◌, ◌<◌, ℕ, List, Some, IfOk, OnOk, slice_get, length};
ghost use Rattle.std.specs.Iterator.{YieldsFirstBy, item_count};
ghost use Rattle.pol_cursor.specs.Outcome.{Outcome, Answers};
ghost use Rattle.pol_cursor.specs.Parts.{records_at};
ghost use Rattle.pol_cursor.specs.References.{placed, values_of};
ghost use Rattle.pol_cursor.specs.NestedRecords.{nested_in, nested_end, HasNested};

use crate::{Cursor, Record, RecordView};
use pol_fields::Fault;
use std::marker::{Model, PhantomData};

/// A kind of record that stands in a list inside another record.
pub trait NestedRecord: Record {
    /// What it is read under besides the bytes: the version, say.
    type Setting;

    /// How it is read.
    ghost reads: { Self.Setting → List ℕ → ℕ → Outcome Self.Owned };

    /// The place behind the record that stands at a place.
    ghost ends: { List ℕ → ℕ → ℕ };

    /// The place behind the record there.
    fn end(bytes: &[u8], place: u32) -> u32
        requires { Self.has bytes.now place }
        ensures { result ≡ ends bytes.now place };

    /// Passes over the record at the cursor, which then stands behind it. Takes no memory.
    fn pass(c: &mut Cursor<'_>, setting: &Self::Setting) -> Result<(), Fault>
        ensures exact { Answers (λ _. Self.standing c.old.bytes c.old.place) result (reads setting.now) c.old c.new }
        ensures stands { OnOk result (Self.has c.old.bytes c.old.place) }
        ensures next { OnOk result (c.new.place ≡ ends c.old.bytes c.old.place) };
}

/// Records that stand one behind the other. Contracts see the list of those that are left, each with its place.
#[derive(Drop)]
pub struct NestedRecords<'a, K: NestedRecord + Drop> {
    bytes: &'a [u8],
    place: u32,
    count: u32,
    kind: PhantomData<K>,
}

impl<'a, K: NestedRecord + Drop> Model for NestedRecords<'a, K> {
    ghost use Rattle.std.specs.Prelude.{List};
    ghost use Rattle.pol_cursor.specs.References.{Placed};
    ghost use Rattle.pol_cursor.specs.NestedRecords.{nested_in, HasNested};

    ghost Value = { List (Placed K.Owned) };

    ghost view = { λ r. nested_in K.standing K.ends r.bytes.now r.place r.count };

    ghost invariant = { λ r. HasNested K.has K.ends r.bytes.now r.place r.count };
}

impl<'a, K: NestedRecord + Drop> NestedRecords<'a, K> {
    /// So many records from a place on that has them.
    pub fn at(bytes: &'a [u8], place: u32, count: u32) -> NestedRecords<'a, K>
        requires { HasNested K.has K.ends bytes.now place count }
        ensures { result ≡ nested_in K.standing K.ends bytes.now place count }
    {
        NestedRecords {
            bytes,
            place,
            count,
            kind: PhantomData,
        }
    }

    /// How many records there are.
    pub fn len(&self) -> u32
        ensures { result ≡ length self.now }
    {
        self.count
    }

    /// The records again, from the first that is left.
    pub fn iter(&self) -> NestedRecords<'a, K>
        ensures { result ≡ self.now }
    {
        NestedRecords::at(self.bytes, self.place, self.count)
    }
}

impl<'a, V: RecordView<'a> + NestedRecord + Drop> NestedRecords<'a, V> {
    /// The record of that number, from 0 on. It goes through the records before.
    pub fn view(&self, i: u32) -> V::View
        requires { i < length self.now }
        ensures { slice_get self.now i ≡ Some (V.shown result) }
    {
        let place = end_of_nested::<V>(self.bytes, self.place, i);
        V::at(self.bytes, place)
    }
}

impl<'a, V: RecordView<'a> + NestedRecord + Drop> Iterator for NestedRecords<'a, V> {
    type Item = V::View;

    ghost next_gives = { YieldsFirstBy V.shown (λ rest. rest) };

    ghost remaining = { item_count (λ rest. rest) };

    fn next(&mut self) -> Option<V::View> {
        if self.count == 0 {
            return None;
        }
        let view = V::at(self.bytes, self.place);
        self.place = V::end(self.bytes, self.place);
        self.count -= 1;
        Some(view)
    }
}

/// The place behind so many records that stand there.
pub fn end_of_nested<K: NestedRecord>(bytes: &[u8], place: u32, count: u32) -> u32
    requires { HasNested K.has K.ends bytes.now place count }
    ensures { result ≡ nested_end K.ends bytes.now place count }
{
    let mut end = place;
    for _ in 0..count {
        end = K::end(bytes, end);
    }
    end
}

/// Reads n records that stand one behind the other. Takes no memory.
pub fn read_nested<'a, K: NestedRecord + Drop>(
    c: &mut Cursor<'a>,
    n: u32,
    setting: &K::Setting,
) -> Result<NestedRecords<'a, K>, Fault>
    ensures exact { Answers (λ run. values_of run) result (records_at (K.reads setting.now) n) c.old c.new }
    ensures stand { OnOk result (HasNested K.has K.ends c.old.bytes c.old.place n) }
    ensures next { OnOk result (c.new.place ≡ nested_end K.ends c.old.bytes c.old.place n) }
    ensures same { IfOk result (λ run. run ≡ nested_in K.standing K.ends c.old.bytes c.old.place n) }
    ensures count { IfOk result (λ run. length run ≡ n) }
{
    let bytes = c.bytes();
    let place = c.place();
    for _ in 0..n {
        K::pass(c, setting)?;
    }
    Ok(NestedRecords {
        bytes,
        place,
        count: n,
        kind: PhantomData,
    })
}
