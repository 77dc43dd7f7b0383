//! The entry of a range of ports in the buffer: how it is read, shown and written.

ghost use Rattle.std.specs.Prelude.{◌≡◌, ◌+◌};
ghost use Rattle.pol_contexts.specs.PortRecord.{port_at, port_in, spell_port, HasPort, port_references};

use crate::entry::{Entry, Standing};
use crate::kinds::{Port, PortView};
use crate::port_rec::PortRec;
use pol_cursor::{Cursor, Names, Part, ReadAlone, Written, u32_in};
use pol_fields::Fault;
use pol_fields::fields::{PORT_HIGH, PORT_LOW, PORT_PROTOCOL};
use pol_mls::{ContextView, read_context};
use std::alloc::{AllocError, Global};

impl Standing for PortRec {
    ghost standing = { port_in };

    ghost has = { HasPort };
}

impl<'a> PortView<'a> {
    /// The number of the protocol.
    pub fn protocol(&self) -> u32
        ensures { result ≡ self.now.value.protocol }
    {
        u32_in(self.bytes, self.place as usize)
    }

    /// The lowest port.
    pub fn low(&self) -> u32
        ensures { result ≡ self.now.value.low }
    {
        u32_in(self.bytes, self.place as usize + 4)
    }

    /// The highest port.
    pub fn high(&self) -> u32
        ensures { result ≡ self.now.value.high }
    {
        u32_in(self.bytes, self.place as usize + 8)
    }

    /// Its context.
    pub fn context(&self) -> ContextView<'a>
        ensures { result ≡ record { place = self.now.place + 12; value = self.now.value.context } }
    {
        ContextView::at(self.bytes, self.place + 12)
    }
}

impl Entry for PortRec {
    ghost references = { port_references };

    fn copy_of(view: &PortView<'_>, alloc: Global) -> Result<PortRec, AllocError> {
        Ok(PortRec {
            protocol: view.protocol(),
            low: view.low(),
            high: view.high(),
            context: view.context().rec(alloc)?,
        })
    }

    fn dangling_in<N: Names>(view: &PortView<'_>, names: &N) -> Option<Fault> {
        view.context().dangling(names)
    }
}

impl ReadAlone for Port {
    ghost reads = { port_at };

    #[tactic(auto, unfolding(crate::specs::PortRecord::port_at), using(pol_cursor::proofs::Facts::number_is))]
    fn pass(c: &mut Cursor<'_>) -> Result<(), Fault> {
        c.u32(PORT_PROTOCOL)?;
        c.u32(PORT_LOW)?;
        c.u32(PORT_HIGH)?;
        read_context(c)?;
        Ok(())
    }
}

impl Written for PortRec {
    ghost spelling = { spell_port };

    fn write(&self, out: &mut Vec<u8>) -> Result<(), AllocError> {
        let protocol = Part::U32(self.protocol as u64);
        let low = Part::U32(self.low as u64);
        let high = Part::U32(self.high as u64);
        (protocol, low, high, &self.context).write(out)
    }
}
