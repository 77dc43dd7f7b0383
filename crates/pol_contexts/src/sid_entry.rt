//! The entry of an initial SID in the buffer: how it is read, shown and written.

ghost use Rattle.std.specs.Prelude.{◌≡◌, ◌+◌};
ghost use Rattle.pol_contexts.specs.SidRecord.{sid_at, sid_in, spell_sid, HasSid, sid_references};

use crate::entry::{Entry, Standing};
use crate::kinds::{Sid, SidView};
use crate::sid_rec::SidRec;
use pol_cursor::{Cursor, Names, Part, ReadAlone, Written, u32_in};
use pol_fields::Fault;
use pol_fields::fields::SID_SID;
use pol_mls::{ContextView, read_context};
use std::alloc::{AllocError, Global};

impl Standing for SidRec {
    ghost standing = { sid_in };

    ghost has = { HasSid };
}

impl<'a> SidView<'a> {
    /// The number of the initial SID.
    pub fn sid(&self) -> u32
        ensures { result ≡ self.now.value.sid }
    {
        u32_in(self.bytes, self.place as usize)
    }

    /// Its context.
    pub fn context(&self) -> ContextView<'a>
        ensures { result ≡ record { place = self.now.place + 4; value = self.now.value.context } }
    {
        ContextView::at(self.bytes, self.place + 4)
    }
}

impl Entry for SidRec {
    ghost references = { sid_references };

    fn copy_of(view: &SidView<'_>, alloc: Global) -> Result<SidRec, AllocError> {
        Ok(SidRec {
            sid: view.sid(),
            context: view.context().rec(alloc)?,
        })
    }

    fn dangling_in<N: Names>(view: &SidView<'_>, names: &N) -> Option<Fault> {
        view.context().dangling(names)
    }
}

impl ReadAlone for Sid {
    ghost reads = { sid_at };

    #[tactic(auto, unfolding(crate::specs::SidRecord::sid_at), using(pol_cursor::proofs::Facts::number_is))]
    fn pass(c: &mut Cursor<'_>) -> Result<(), Fault> {
        c.u32(SID_SID)?;
        read_context(c)?;
        Ok(())
    }
}

impl Written for SidRec {
    ghost spelling = { spell_sid };

    fn write(&self, out: &mut Vec<u8>) -> Result<(), AllocError> {
        (Part::U32(self.sid as u64), &self.context).write(out)
    }
}
