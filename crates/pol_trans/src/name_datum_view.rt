//! A datum of a group of file-name transitions in the buffer, and how it is read.

ghost use Rattle.std.specs.Prelude.{◌≡◌, ◌+◌, [], ◌∷◌};
ghost use Rattle.pol_cursor.specs.References.{dangling_of};
ghost use Rattle.pol_trans.specs.NameGroupRecord.{name_datum_in, HasNameDatum, name_datum_reference};

use crate::name_datum_rec::NameDatumRec;
use crate::transition::{Stored, TransitionView};
use pol_bitmap::{BitmapView, Set};
use pol_cursor::{Copied, Cursor, Names, NestedRecord, Record, RecordView, dangling, u32_in};
use pol_fields::Fault;
use pol_fields::TableKind::Types;
use pol_fields::fields::NAMEGROUP_DEFAULT;
use std::alloc::{AllocError, Global};
use std::marker::PhantomData;

/// A datum of a group of file-name transitions in the buffer.
pub type NameDatumView<'a> = TransitionView<'a, NameDatumRec>;

impl<'a> NameDatumView<'a> {
    /// The place of its first byte.
    pub fn place(&self) -> u32
        ensures { result ≡ self.now.place }
    {
        self.place
    }

    /// The types that make the object: bit v - 1 stands for the value v.
    pub fn sources(&self) -> BitmapView<'a>
        ensures { result ≡ self.now.value.sources }
    {
        BitmapView::at(self.bytes, self.place)
    }

    /// The value of the type that the new object has.
    #[tactic(auto, using(pol_bitmap::proofs::NodePlaces::length_nodes_in))]
    pub fn default(&self) -> u32
        ensures { result ≡ self.now.value.default }
    {
        u32_in(self.bytes, (self.place + self.sources().size()) as usize)
    }

    /// The default as a fault at its field, where no primary record declares it.
    #[tactic(auto, using(pol_bitmap::proofs::NodePlaces::length_nodes_in))]
    pub fn dangling<N: Names>(&self, names: &N) -> Option<Fault>
        ensures { result ≡ dangling_of (N.named names.now) (name_datum_reference self.now ∷ []) }
    {
        let place = self.place + self.sources().size();
        dangling(names, place, NAMEGROUP_DEFAULT, Types, self.default())
    }
}

impl Stored for NameDatumRec {
    ghost standing = { name_datum_in };

    ghost has = { HasNameDatum };

    fn copy_of(view: &NameDatumView<'_>, alloc: Global) -> Result<NameDatumRec, AllocError> {
        Ok(NameDatumRec {
            sources: Set::from_view(alloc, &view.sources())?,
            default: view.default(),
        })
    }
}

/// The kind of these data.
#[derive(Drop)]
pub struct NameDatum;

impl Record for NameDatum {
    type Owned = NameDatumRec;

    ghost standing = { name_datum_in };

    ghost has = { HasNameDatum };
}

impl NestedRecord for NameDatum {
    ghost use Rattle.pol_trans.specs.NameGroupRecord.{name_datum_at, name_datum_end};

    type Setting = ();

    ghost reads = { λ _. name_datum_at };

    ghost ends = { name_datum_end };

    #[tactic(auto, using(pol_bitmap::proofs::NodePlaces::length_nodes_in))]
    fn end(bytes: &[u8], place: u32) -> u32 {
        place + BitmapView::at(bytes, place).size() + 4
    }

    #[tactic(auto, unfolding(crate::specs::NameGroupRecord::name_datum_at), using(pol_cursor::proofs::Facts::number_is))]
    fn pass(c: &mut Cursor<'_>, _setting: &()) -> Result<(), Fault> {
        BitmapView::read(c)?;
        c.u32(NAMEGROUP_DEFAULT)?;
        Ok(())
    }
}

impl<'a> RecordView<'a> for NameDatum {
    type View = NameDatumView<'a>;

    ghost shown = { λ view. view };

    fn at(bytes: &'a [u8], place: u32) -> NameDatumView<'a> {
        NameDatumView {
            bytes,
            place,
            owned: PhantomData,
        }
    }
}

impl<'a> Copied<'a> for NameDatum {
    fn rec(view: &Self::View, alloc: Global) -> Result<Self::Owned, AllocError> {
        view.rec(alloc)
    }
}
