//! A range in the buffer, and how it is read.

ghost use Rattle.std.specs.Prelude.{◌≡◌, ◌+◌, ◌==◌, ◌||◌, IfOk, OnOk, IsTrue, option_map, Some, None, if◌then◌else◌};
ghost use Rattle.pol_cursor.specs.Outcome.{Answers};
ghost use Rattle.pol_cursor.specs.Parts.{num, number, optional};
ghost use Rattle.pol_cursor.specs.References.{dangling_of};
ghost use Rattle.pol_bitmap.specs.Bitmap.{bitmap_at};
ghost use Rattle.pol_bitmap.specs.Nodes.{bitmap_in, bitmap_size};
ghost use Rattle.pol_mls.specs.RangeRecord.{range_at, range_in, range_length, range_end, HasRange, HasBitmapIf, low_place, high_references, range_references};

use crate::causes::n_cause;
use crate::level_rec::LevelRec;
use crate::range_rec::RangeRec;
use pol_bitmap::{BitmapView, Set};
use pol_cursor::{Cursor, Names, dangling, refuse, u32_in};
use pol_fields::fields::{RANGE_HIGH, RANGE_LOW, RANGE_N};
use pol_fields::{Fault, TableKind};
use std::alloc::{AllocError, Global};
use std::marker::Model;

/// A range of levels in the buffer.
#[derive(Drop)]
pub struct RangeView<'a> {
    bytes: &'a [u8],
    place: u32,
}

impl<'a> Model for RangeView<'a> {
    ghost use Rattle.pol_cursor.specs.References.{Placed};
    ghost use Rattle.pol_mls.specs.declared.range_rec.RangeRec.{RangeRec};
    ghost use Rattle.pol_mls.specs.RangeRecord.{range_in, HasRange};

    ghost Value = { Placed RangeRec };

    ghost view = { λ v. record { place = v.place; value = range_in v.bytes.now v.place } };

    ghost invariant = { λ v. HasRange v.bytes.now v.place };
}

impl<'a> RangeView<'a> {
    /// The range at a place that has one.
    pub fn at(bytes: &'a [u8], place: u32) -> RangeView<'a>
        requires { HasRange bytes.now place }
        ensures { result ≡ record { place = place; value = range_in bytes.now place } }
    {
        RangeView { bytes, place }
    }

    /// The number of its bytes.
    #[tactic(auto, using(pol_bitmap::proofs::NodePlaces::length_nodes_in))]
    pub fn size(&self) -> u32
        ensures { result ≡ range_length self.now.value }
    {
        let low = 8 + self.low_categories().size();
        match self.high_categories() {
            None => low,
            Some(high) => low + 4 + high.size(),
        }
    }

    /// How many levels it has: 1 or 2.
    pub fn n(&self) -> u32
        ensures { result ≡ self.now.value.n }
    {
        u32_in(self.bytes, self.place as usize)
    }

    /// The value of the low level's sensitivity.
    pub fn low(&self) -> u32
        ensures { result ≡ self.now.value.low }
    {
        u32_in(self.bytes, self.place as usize + 4)
    }

    /// The value of the high level's sensitivity, where n is 2.
    pub fn high(&self) -> Option<u32>
        ensures { result ≡ option_map (λ level. level.sens) self.now.value.high }
    {
        if self.n() == 2 {
            Some(u32_in(self.bytes, self.place as usize + 8))
        } else {
            None
        }
    }

    /// The low level's categories: bit v - 1 stands for the value v.
    pub fn low_categories(&self) -> BitmapView<'a>
        ensures { result ≡ self.now.value.low_categories }
    {
        BitmapView::at(self.bytes, low_place(self.bytes, self.place))
    }

    /// The high level's categories, where n is 2.
    #[tactic(auto, using(pol_bitmap::proofs::NodePlaces::length_nodes_in))]
    pub fn high_categories(&self) -> Option<BitmapView<'a>>
        ensures { result ≡ option_map (λ level. level.categories) self.now.value.high }
    {
        if self.n() == 2 {
            let place = low_place(self.bytes, self.place) + self.low_categories().size();
            Some(BitmapView::at(self.bytes, place))
        } else {
            None
        }
    }

    /// The first sensitivity, the low one before the high one, as a fault at its field, where no primary record declares it.
    pub fn dangling<N: Names>(&self, names: &N) -> Option<Fault>
        ensures { result ≡ dangling_of (N.named names.now) (range_references self.now) }
    {
        match dangling(
            names,
            self.place + 4,
            RANGE_LOW,
            TableKind::Levels,
            self.low(),
        ) {
            Some(fault) => Some(fault),
            None => self.dangling_high(names),
        }
    }

    fn dangling_high<N: Names>(&self, names: &N) -> Option<Fault>
        ensures { result ≡ dangling_of (N.named names.now) (high_references (self.now.place + 8) self.now.value.high) }
    {
        match self.high() {
            Some(high) => dangling(names, self.place + 8, RANGE_HIGH, TableKind::Levels, high),
            None => None,
        }
    }

    /// A copy of the range.
    pub fn rec(&self, alloc: Global) -> Result<RangeRec, AllocError>
        ensures { IfOk result (λ range. range ≡ self.now.value) }
    {
        let high = match (self.high(), self.high_categories()) {
            (Some(sens), Some(categories)) => Some(LevelRec {
                sens,
                categories: Set::from_view(alloc, &categories)?,
            }),
            _ => None,
        };
        Ok(RangeRec {
            n: self.n(),
            low: self.low(),
            low_categories: Set::from_view(alloc, &self.low_categories())?,
            high,
        })
    }
}

// The place of the low bitmap, behind the numbers.
fn low_place(bytes: &[u8], place: u32) -> u32
    requires { HasRange bytes.now place }
    ensures { result ≡ low_place bytes.now place }
{
    if u32_in(bytes, place as usize) == 2 {
        place + 12
    } else {
        place + 8
    }
}

/// The range at the cursor, which then stands behind it. Takes no memory. `BadRange` where it has neither one level nor two,
/// and the faults of `BitmapView::read`.
#[tactic(auto, unfolding(crate::specs::RangeRecord::range_at), using(pol_cursor::proofs::Facts::number_is))]
pub fn read_range<'a>(c: &mut Cursor<'a>) -> Result<RangeView<'a>, Fault>
    ensures exact { Answers (λ range. range.value) result range_at c.old c.new }
    ensures stands { IfOk result (λ range. HasRange c.old.bytes c.old.place × (range ≡ record { place = c.old.place; value = range_in c.old.bytes c.old.place })) }
    ensures next { OnOk result (c.new.place ≡ range_end c.old.bytes c.old.place) }
{
    let bytes = c.bytes();
    let place = c.place();
    let n = c.u32(RANGE_N)?;
    refuse(n_cause(n), place, RANGE_N)?;
    c.u32(RANGE_LOW)?;
    pass_high(c, n == 2)?;
    BitmapView::read(c)?;
    pass_high_categories(c, n == 2)?;
    Ok(RangeView { bytes, place })
}

// Reads the high number, where there is one.
#[tactic(auto, unfolding(pol_cursor::specs::Parts::optional), using(pol_cursor::proofs::Facts::number_is))]
fn pass_high(c: &mut Cursor<'_>, there: bool) -> Result<Option<u32>, Fault>
    ensures exact { Answers (λ high. high) result (optional there (number RANGE_HIGH 4)) c.old c.new }
    ensures is { IfOk result (λ high. high ≡ (if there then Some (num c.old.bytes c.old.place 4) else None)) }
    ensures next { OnOk result (c.new.place ≡ c.old.place + (if there then 4 else 0)) }
{
    if there {
        let high = c.u32(RANGE_HIGH)?;
        Ok(Some(high))
    } else {
        Ok(None)
    }
}

// Reads the high bitmap, where there is one.
#[tactic(auto, unfolding(pol_cursor::specs::Parts::optional))]
fn pass_high_categories<'a>(
    c: &mut Cursor<'a>,
    there: bool,
) -> Result<Option<BitmapView<'a>>, Fault>
    ensures exact { Answers (λ categories. categories) result (optional there (bitmap_at None)) c.old c.new }
    ensures is { IfOk result (λ categories. categories ≡ (if there then Some (bitmap_in c.old.bytes c.old.place) else None)) }
    ensures stands { OnOk result (HasBitmapIf there c.old.bytes c.old.place) }
    ensures next { OnOk result (c.new.place ≡ c.old.place + (if there then bitmap_size c.old.bytes c.old.place else 0)) }
{
    if there {
        Ok(Some(BitmapView::read(c)?))
    } else {
        Ok(None)
    }
}
