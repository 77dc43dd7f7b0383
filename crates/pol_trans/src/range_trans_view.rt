//! A range transition in the buffer, and how it is read.

ghost use Rattle.std.specs.Prelude.{◌≡◌, IfOk};
ghost use Rattle.pol_cursor.specs.Outcome.{Answers};
ghost use Rattle.pol_trans.specs.RangeTransRecord.{range_trans_at, range_trans_in, HasRangeTrans, range_trans_references, range_of};

use crate::range_trans_rec::RangeTransRec;
use crate::transition::{Stored, Transition, TransitionView, read_transition};
use pol_cursor::{Cursor, Mention, Names, first_dangling, u32_in};
use pol_fields::Fault;
use pol_fields::TableKind::{Classes, Types};
use pol_fields::fields::{RANGETRANS_CLASS, RANGETRANS_SOURCE, RANGETRANS_TARGET};
use pol_mls::{RangeView, read_range};
use std::alloc::{AllocError, Global};

/// A range transition in the buffer.
pub type RangeTransView<'a> = TransitionView<'a, RangeTransRec>;

impl<'a> RangeTransView<'a> {
    /// The value of the type that makes the object or is the process.
    pub fn source(&self) -> u32
        ensures { result ≡ self.now.value.source }
    {
        u32_in(self.bytes, self.place as usize)
    }

    /// The value of the type that is run or that the object is made from.
    pub fn target(&self) -> u32
        ensures { result ≡ self.now.value.target }
    {
        u32_in(self.bytes, self.place as usize + 4)
    }

    /// The value of the class of the new object.
    pub fn class(&self) -> u32
        ensures { result ≡ self.now.value.class }
    {
        u32_in(self.bytes, self.place as usize + 8)
    }

    /// The range of the new object.
    pub fn range(&self) -> RangeView<'a>
        ensures { result ≡ range_of self.now }
    {
        RangeView::at(self.bytes, self.place + 12)
    }
}

impl Stored for RangeTransRec {
    ghost standing = { range_trans_in };

    ghost has = { HasRangeTrans };

    fn copy_of(view: &RangeTransView<'_>, alloc: Global) -> Result<RangeTransRec, AllocError> {
        Ok(RangeTransRec {
            source: view.source(),
            target: view.target(),
            class: view.class(),
            range: view.range().rec(alloc)?,
        })
    }
}

impl Transition for RangeTransRec {
    ghost reads = { range_trans_at };

    ghost references = { range_trans_references };

    #[tactic(auto, unfolding(crate::specs::RangeTransRecord::range_trans_at), using(pol_cursor::proofs::Facts::number_is))]
    fn pass(c: &mut Cursor<'_>) -> Result<(), Fault> {
        c.u32(RANGETRANS_SOURCE)?;
        c.u32(RANGETRANS_TARGET)?;
        c.u32(RANGETRANS_CLASS)?;
        read_range(c)?;
        Ok(())
    }

    fn dangling_in<N: Names>(view: &RangeTransView<'_>, names: &N) -> Option<Fault> {
        let own = first_dangling(
            names,
            &[
                Mention::new(RANGETRANS_SOURCE, view.place, Types, view.source()),
                Mention::new(RANGETRANS_TARGET, view.place + 4, Types, view.target()),
                Mention::new(RANGETRANS_CLASS, view.place + 8, Classes, view.class()),
            ],
        );
        match own {
            Some(fault) => Some(fault),
            None => view.range().dangling(names),
        }
    }
}

/// The range transition at the cursor, which then stands behind it. Takes no memory. `BadRange` where its range has
/// neither one level nor two.
pub fn read_range_trans_entry<'a>(c: &mut Cursor<'a>) -> Result<RangeTransView<'a>, Fault>
    ensures exact { Answers (λ trans. trans.value) result range_trans_at c.old c.new }
    ensures stands { IfOk result (λ trans. HasRangeTrans c.old.bytes c.old.place × (trans ≡ record { place = c.old.place; value = range_trans_in c.old.bytes c.old.place })) }
{
    read_transition::<RangeTransRec>(c)
}
