//! A level in the buffer, and how it is read.

ghost use Rattle.std.specs.Prelude.{◌≡◌, ◌+◌, IfOk, OnOk};
ghost use Rattle.pol_cursor.specs.Outcome.{Answers};
ghost use Rattle.pol_cursor.specs.References.{dangling_of};
ghost use Rattle.pol_mls.specs.LevelRecord.{level_at, level_in, level_length, level_size, HasLevel, level_references};

use crate::level_rec::LevelRec;
use pol_bitmap::{BitmapView, Set};
use pol_cursor::{Cursor, Names, dangling, u32_in};
use pol_fields::fields::LEVEL_SENS;
use pol_fields::{Fault, TableKind};
use std::alloc::{AllocError, Global};
use std::marker::Model;

/// A level in the buffer.
#[derive(Drop)]
pub struct LevelView<'a> {
    bytes: &'a [u8],
    place: u32,
}

impl<'a> Model for LevelView<'a> {
    ghost use Rattle.pol_cursor.specs.References.{Placed};
    ghost use Rattle.pol_mls.specs.declared.level_rec.LevelRec.{LevelRec};
    ghost use Rattle.pol_mls.specs.LevelRecord.{level_in, HasLevel};

    ghost Value = { Placed LevelRec };

    ghost view = { λ v. record { place = v.place; value = level_in v.bytes.now v.place } };

    ghost invariant = { λ v. HasLevel v.bytes.now v.place };
}

impl<'a> LevelView<'a> {
    /// The level at a place that has one.
    pub fn at(bytes: &'a [u8], place: u32) -> LevelView<'a>
        requires { HasLevel bytes.now place }
        ensures { result ≡ record { place = place; value = level_in bytes.now place } }
    {
        LevelView { bytes, place }
    }

    /// The number of its bytes.
    #[tactic(auto, using(pol_bitmap::proofs::NodePlaces::length_nodes_in))]
    pub fn size(&self) -> u32
        ensures { result ≡ level_length self.now.value }
    {
        4 + self.categories().size()
    }

    /// The value of the sensitivity.
    pub fn sens(&self) -> u32
        ensures { result ≡ self.now.value.sens }
    {
        u32_in(self.bytes, self.place as usize)
    }

    /// The categories: bit v - 1 stands for the value v.
    pub fn categories(&self) -> BitmapView<'a>
        ensures { result ≡ self.now.value.categories }
    {
        BitmapView::at(self.bytes, self.place + 4)
    }

    /// The sensitivity as a fault at its field, where no primary record declares it.
    pub fn dangling<N: Names>(&self, names: &N) -> Option<Fault>
        ensures { result ≡ dangling_of (N.named names.now) (level_references self.now) }
    {
        dangling(
            names,
            self.place,
            LEVEL_SENS,
            TableKind::Levels,
            self.sens(),
        )
    }

    /// A copy of the level.
    pub fn rec(&self, alloc: Global) -> Result<LevelRec, AllocError>
        ensures { IfOk result (λ level. level ≡ self.now.value) }
    {
        Ok(LevelRec {
            sens: self.sens(),
            categories: Set::from_view(alloc, &self.categories())?,
        })
    }
}

/// The level at the cursor, which then stands behind it. Takes no memory. The faults are `Short` and those of
/// `BitmapView::read`.
#[tactic(auto, unfolding(crate::specs::LevelRecord::level_at), using(pol_cursor::proofs::Facts::number_is))]
pub fn read_level<'a>(c: &mut Cursor<'a>) -> Result<LevelView<'a>, Fault>
    ensures exact { Answers (λ level. level.value) result level_at c.old c.new }
    ensures stands { IfOk result (λ level. HasLevel c.old.bytes c.old.place × (level ≡ record { place = c.old.place; value = level_in c.old.bytes c.old.place })) }
    ensures next { OnOk result (c.new.place ≡ c.old.place + level_size c.old.bytes c.old.place) }
{
    let bytes = c.bytes();
    let place = c.place();
    c.u32(LEVEL_SENS)?;
    BitmapView::read(c)?;
    Ok(LevelView { bytes, place })
}
