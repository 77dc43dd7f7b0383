//! The entry of how the files of a file system get their contexts in the buffer: how it is read, shown and written.

ghost use Rattle.std.specs.Prelude.{◌≡◌, ◌+◌, IfOk, OnOk, length};
ghost use Rattle.pol_cursor.specs.Outcome.{Answers};
ghost use Rattle.pol_cursor.specs.Parts.{num};
ghost use Rattle.pol_contexts.specs.FsUseRecord.{fsuse_at, fsuse_in, spell_fsuse, HasFsUse, fsuse_references, behaviour_at};

use crate::causes::behaviour_cause;
use crate::entry::{Entry, Standing};
use crate::fsuse_rec::FsUseRec;
use crate::kinds::{FsUse, FsUseView};
use pol_cursor::{
    ByteList, Cursor, Names, Part, ReadAlone, Written, name_end, name_standing, read_name, refuse,
    u32_in,
};
use pol_fields::Fault;
use pol_fields::fields::{FSUSE_BEHAVIOUR, FSUSE_LEN, FSUSE_NAME};
use pol_mls::{ContextView, read_context};
use std::alloc::{AllocError, Global};

impl Standing for FsUseRec {
    ghost standing = { fsuse_in };

    ghost has = { HasFsUse };
}

impl<'a> FsUseView<'a> {
    /// How the files get their contexts: `SECURITY_FS_USE_XATTR`, `SECURITY_FS_USE_TRANS` or `SECURITY_FS_USE_TASK`.
    pub fn behaviour(&self) -> u32
        ensures { result ≡ self.now.value.behaviour }
    {
        u32_in(self.bytes, self.place as usize)
    }

    /// The name of the file system.
    pub fn name(&self) -> &'a [u8]
        ensures { result.now ≡ self.now.value.name }
    {
        name_standing(self.bytes, self.place + 4)
    }

    /// Its context.
    #[tactic(auto, using(pol_cursor::proofs::Facts::length_part, pol_mls::proofs::ContextPlaces::context_ends))]
    pub fn context(&self) -> ContextView<'a>
        ensures { result ≡ record { place = self.now.place + 8 + length self.now.value.name; value = self.now.value.context } }
    {
        ContextView::at(self.bytes, name_end(self.bytes, self.place + 4))
    }
}

impl Entry for FsUseRec {
    ghost references = { fsuse_references };

    fn copy_of(view: &FsUseView<'_>, alloc: Global) -> Result<FsUseRec, AllocError> {
        Ok(FsUseRec {
            behaviour: view.behaviour(),
            name: ByteList::copy_of(alloc, view.name())?,
            context: view.context().rec(alloc)?,
        })
    }

    fn dangling_in<N: Names>(view: &FsUseView<'_>, names: &N) -> Option<Fault> {
        view.context().dangling(names)
    }
}

impl ReadAlone for FsUse {
    ghost reads = { fsuse_at };

    // `BadBehaviour` where the behaviour is none of the three.
    #[tactic(auto, unfolding(crate::specs::FsUseRecord::fsuse_at))]
    fn pass(c: &mut Cursor<'_>) -> Result<(), Fault> {
        read_behaviour(c)?;
        read_name(c, FSUSE_LEN, FSUSE_NAME)?;
        read_context(c)?;
        Ok(())
    }
}

// Reads how the files get their contexts.
#[tactic(auto, unfolding(crate::specs::FsUseRecord::behaviour_at), using(pol_cursor::proofs::Facts::number_is))]
fn read_behaviour(c: &mut Cursor<'_>) -> Result<u32, Fault>
    ensures exact { Answers (λ behaviour. behaviour) result behaviour_at c.old c.new }
    ensures same { IfOk result (λ behaviour. behaviour ≡ num c.old.bytes c.old.place 4) }
    ensures next { OnOk result (c.new.place ≡ c.old.place + 4) }
{
    let place = c.place();
    let behaviour = c.u32(FSUSE_BEHAVIOUR)?;
    refuse(behaviour_cause(behaviour), place, FSUSE_BEHAVIOUR)?;
    Ok(behaviour)
}

impl Written for FsUseRec {
    ghost spelling = { spell_fsuse };

    fn write(&self, out: &mut Vec<u8>) -> Result<(), AllocError> {
        let behaviour = Part::U32(self.behaviour as u64);
        let name = (
            Part::U32(self.name.len() as u64),
            Part::Bytes(self.name.as_slice()),
        );
        (behaviour, name, &self.context).write(out)
    }
}
