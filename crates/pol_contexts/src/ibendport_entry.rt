//! The entry of an InfiniBand device at a port in the buffer: how it is read, shown and written.

ghost use Rattle.std.specs.Prelude.{◌≡◌, ◌+◌, IfOk, OnOk, length};
ghost use Rattle.pol_cursor.specs.Outcome.{Answers};
ghost use Rattle.pol_cursor.specs.Parts.{num, number};
ghost use Rattle.pol_contexts.specs.IbEndPortRecord.{ibendport_at, ibendport_in, spell_ibendport, HasIbEndPort, ibendport_references};

use crate::entry::{Entry, Standing};
use crate::ibendport_rec::IbEndPortRec;
use crate::kinds::{IbEndPort, IbEndPortView};
use pol_cursor::{
    ByteList, Cursor, Names, Part, ReadAlone, Written, read_name_bytes, read_name_length,
    string_in, u32_in,
};
use pol_fields::Fault;
use pol_fields::fields::{IBENDPORT_LEN, IBENDPORT_NAME, IBENDPORT_PORT};
use pol_mls::{ContextView, read_context};
use std::alloc::{AllocError, Global};

impl Standing for IbEndPortRec {
    ghost standing = { ibendport_in };

    ghost has = { HasIbEndPort };
}

impl<'a> IbEndPortView<'a> {
    /// The number of the port.
    pub fn port(&self) -> u32
        ensures { result ≡ self.now.value.port }
    {
        u32_in(self.bytes, self.place as usize + 4)
    }

    /// The name of the device.
    pub fn name(&self) -> &'a [u8]
        ensures { result.now ≡ self.now.value.name }
    {
        let len = u32_in(self.bytes, self.place as usize);
        string_in(self.bytes, self.place as usize + 8, len as usize)
    }

    /// Its context.
    #[tactic(auto, using(pol_cursor::proofs::Facts::length_part, pol_mls::proofs::ContextPlaces::context_ends))]
    pub fn context(&self) -> ContextView<'a>
        ensures { result ≡ record { place = self.now.place + 8 + length self.now.value.name; value = self.now.value.context } }
    {
        let len = u32_in(self.bytes, self.place as usize);
        ContextView::at(self.bytes, self.place + 8 + len)
    }
}

impl Entry for IbEndPortRec {
    ghost references = { ibendport_references };

    fn copy_of(view: &IbEndPortView<'_>, alloc: Global) -> Result<IbEndPortRec, AllocError> {
        Ok(IbEndPortRec {
            port: view.port(),
            name: ByteList::copy_of(alloc, view.name())?,
            context: view.context().rec(alloc)?,
        })
    }

    fn dangling_in<N: Names>(view: &IbEndPortView<'_>, names: &N) -> Option<Fault> {
        view.context().dangling(names)
    }
}

impl ReadAlone for IbEndPort {
    ghost reads = { ibendport_at };

    #[tactic(auto, unfolding(crate::specs::IbEndPortRecord::ibendport_at))]
    fn pass(c: &mut Cursor<'_>) -> Result<(), Fault> {
        let len = read_name_length(c, IBENDPORT_LEN)?;
        read_port(c)?;
        read_name_bytes(c, IBENDPORT_NAME, len)?;
        read_context(c)?;
        Ok(())
    }
}

// Reads the number of the port, which stands before the name.
#[tactic(auto, using(pol_cursor::proofs::Facts::number_is))]
fn read_port(c: &mut Cursor<'_>) -> Result<u32, Fault>
    ensures exact { Answers (λ port. port) result (number IBENDPORT_PORT 4) c.old c.new }
    ensures next { OnOk result (c.new.place ≡ c.old.place + 4) }
    ensures same { IfOk result (λ port. port ≡ num c.old.bytes c.old.place 4) }
{
    c.u32(IBENDPORT_PORT)
}

impl Written for IbEndPortRec {
    ghost spelling = { spell_ibendport };

    fn write(&self, out: &mut Vec<u8>) -> Result<(), AllocError> {
        let len = Part::U32(self.name.len() as u64);
        let port = Part::U32(self.port as u64);
        let name = Part::Bytes(self.name.as_slice());
        (len, port, name, &self.context).write(out)
    }
}
