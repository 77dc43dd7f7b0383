//! The entries of the tables of file systems and of network interfaces: a name and two contexts.
ghost use Rattle.std.specs.Prelude.{◌≡◌, OnOk};
ghost use Rattle.pol_fields.specs.declared.fields.TheConstants.{FS_LEN, FS_NAME, NETIF_LEN, NETIF_NAME};
ghost use Rattle.pol_cursor.specs.Outcome.{Answers};
ghost use Rattle.pol_contexts.specs.NamedRecord.{named_at, named_in, spell_named, HasNamed, named_references, context_place, second_place};

use crate::entry::{Entry, Standing};
use crate::kinds::{Fs, NamedView, Netif};
use crate::named_rec::NamedRec;
use pol_cursor::{
    ByteList, Cursor, Names, Part, ReadAlone, Written, name_end, name_standing, read_name,
};
use pol_fields::fields::{FS_LEN, FS_NAME, NETIF_LEN, NETIF_NAME};
use pol_fields::{Fault, Field};
use pol_mls::{ContextView, context_end, read_context};
use std::alloc::{AllocError, Global};

impl Standing for NamedRec {
    ghost standing = { named_in };

    ghost has = { HasNamed };
}

impl<'a> NamedView<'a> {
    /// Its name.
    pub fn name(&self) -> &'a [u8]
        ensures { result.now ≡ self.now.value.name }
    {
        name_standing(self.bytes, self.place)
    }

    /// Its own context.
    #[tactic(auto, using(pol_cursor::proofs::Facts::length_part, pol_mls::proofs::ContextPlaces::context_ends))]
    pub fn context(&self) -> ContextView<'a>
        ensures { result ≡ record { place = context_place self.now; value = self.now.value.context } }
    {
        ContextView::at(self.bytes, name_end(self.bytes, self.place))
    }

    /// The context of its files, or of the packets that it receives.
    #[tactic(auto, using(pol_cursor::proofs::Facts::length_part, pol_mls::proofs::ContextPlaces::context_ends))]
    pub fn second_context(&self) -> ContextView<'a>
        ensures { result ≡ record { place = second_place self.now; value = self.now.value.second_context } }
    {
        let place = context_end(self.bytes, name_end(self.bytes, self.place));
        ContextView::at(self.bytes, place)
    }
}

impl Entry for NamedRec {
    ghost references = { named_references };

    fn copy_of(view: &NamedView<'_>, alloc: Global) -> Result<NamedRec, AllocError> {
        Ok(NamedRec {
            name: ByteList::copy_of(alloc, view.name())?,
            context: view.context().rec(alloc)?,
            second_context: view.second_context().rec(alloc)?,
        })
    }

    #[tactic(auto, using(pol_cursor::proofs::DanglingLists::dangling_none, pol_cursor::proofs::DanglingLists::undeclared_first))]
    fn dangling_in<N: Names>(view: &NamedView<'_>, names: &N) -> Option<Fault> {
        match view.context().dangling(names) {
            Some(fault) => Some(fault),
            None => view.second_context().dangling(names),
        }
    }
}

impl ReadAlone for Fs {
    ghost reads = { named_at FS_LEN FS_NAME };

    fn pass(c: &mut Cursor<'_>) -> Result<(), Fault> {
        pass_named(c, FS_LEN, FS_NAME)
    }
}

impl ReadAlone for Netif {
    ghost reads = { named_at NETIF_LEN NETIF_NAME };

    fn pass(c: &mut Cursor<'_>) -> Result<(), Fault> {
        pass_named(c, NETIF_LEN, NETIF_NAME)
    }
}

// Passes over the entry at the cursor, whose name has those fields.
#[tactic(auto, unfolding(crate::specs::NamedRecord::named_at), using(pol_cursor::proofs::Facts::number_is))]
fn pass_named(c: &mut Cursor<'_>, length: Field, name: Field) -> Result<(), Fault>
    ensures exact { Answers (λ _. named_in c.old.bytes c.old.place) result (named_at length name) c.old c.new }
    ensures stands { OnOk result (HasNamed c.old.bytes c.old.place) }
{
    read_name(c, length, name)?;
    read_context(c)?;
    read_context(c)?;
    Ok(())
}

impl Written for NamedRec {
    ghost spelling = { spell_named };

    fn write(&self, out: &mut Vec<u8>) -> Result<(), AllocError> {
        let name = (
            Part::U32(self.name.len() as u64),
            Part::Bytes(self.name.as_slice()),
        );
        (name, &self.context, &self.second_context).write(out)
    }
}
