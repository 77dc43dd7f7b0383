//! The entry of a range of InfiniBand partition keys in the buffer: how it is read, shown and written.

ghost use Rattle.std.specs.Prelude.{◌≡◌, ◌+◌};
ghost use Rattle.pol_contexts.specs.IbPkeyRecord.{ibpkey_at, ibpkey_in, spell_ibpkey, HasIbPkey, ibpkey_references};

use crate::entry::{Entry, Standing};
use crate::ibpkey_rec::IbPkeyRec;
use crate::kinds::{IbPkey, IbPkeyView};
use pol_cursor::{Cursor, Names, Part, ReadAlone, Written, array_in, u32_in};
use pol_fields::Fault;
use pol_fields::fields::{IBPKEY_HIGH, IBPKEY_LOW, IBPKEY_PREFIX};
use pol_mls::{ContextView, read_context};
use std::alloc::{AllocError, Global};

impl Standing for IbPkeyRec {
    ghost standing = { ibpkey_in };

    ghost has = { HasIbPkey };
}

impl<'a> IbPkeyView<'a> {
    /// The prefix of the subnet, in the order of its text.
    pub fn prefix(&self) -> [u8; 8]
        ensures { result ≡ self.now.value.prefix }
    {
        array_in(self.bytes, self.place as usize)
    }

    /// The lowest key.
    pub fn low(&self) -> u32
        ensures { result ≡ self.now.value.low }
    {
        u32_in(self.bytes, self.place as usize + 8)
    }

    /// The highest key.
    pub fn high(&self) -> u32
        ensures { result ≡ self.now.value.high }
    {
        u32_in(self.bytes, self.place as usize + 12)
    }

    /// Its context.
    pub fn context(&self) -> ContextView<'a>
        ensures { result ≡ record { place = self.now.place + 16; value = self.now.value.context } }
    {
        ContextView::at(self.bytes, self.place + 16)
    }
}

impl Entry for IbPkeyRec {
    ghost references = { ibpkey_references };

    fn copy_of(view: &IbPkeyView<'_>, alloc: Global) -> Result<IbPkeyRec, AllocError> {
        Ok(IbPkeyRec {
            prefix: view.prefix(),
            low: view.low(),
            high: view.high(),
            context: view.context().rec(alloc)?,
        })
    }

    fn dangling_in<N: Names>(view: &IbPkeyView<'_>, names: &N) -> Option<Fault> {
        view.context().dangling(names)
    }
}

impl ReadAlone for IbPkey {
    ghost reads = { ibpkey_at };

    #[tactic(auto, unfolding(crate::specs::IbPkeyRecord::ibpkey_at), using(pol_cursor::proofs::Facts::number_is, pol_cursor::proofs::Facts::string_is))]
    fn pass(c: &mut Cursor<'_>) -> Result<(), Fault> {
        c.take(8, IBPKEY_PREFIX)?;
        c.u32(IBPKEY_LOW)?;
        c.u32(IBPKEY_HIGH)?;
        read_context(c)?;
        Ok(())
    }
}

impl Written for IbPkeyRec {
    ghost spelling = { spell_ibpkey };

    fn write(&self, out: &mut Vec<u8>) -> Result<(), AllocError> {
        let prefix = Part::Bytes(&self.prefix);
        let low = Part::U32(self.low as u64);
        let high = Part::U32(self.high as u64);
        (prefix, low, high, &self.context).write(out)
    }
}
