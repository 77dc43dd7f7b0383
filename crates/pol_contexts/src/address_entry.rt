//! The entry of addresses, IPv4 or IPv6 in the buffer: how it is read, shown and written.

ghost use Rattle.std.specs.Prelude.{◌≡◌, ◌+◌, ◌≤◌, OnOk};
ghost use Rattle.pol_fields.specs.declared.fields.TheConstants.{NODE_ADDRESS, NODE_MASK, NODE6_ADDRESS, NODE6_MASK};
ghost use Rattle.pol_cursor.specs.Outcome.{Answers};
ghost use Rattle.pol_contexts.specs.AddressRecord.{address_at, address_in, spell_address, HasAddress, address_references};

use crate::address_rec::AddressRec;
use crate::entry::{Entry, Standing};
use crate::kinds::{AddressView, Node, Node6};
use pol_cursor::{Cursor, Names, Part, ReadAlone, Written, array_in};
use pol_fields::fields::{NODE_ADDRESS, NODE_MASK, NODE6_ADDRESS, NODE6_MASK};
use pol_fields::{Fault, Field};
use pol_mls::{ContextView, read_context};
use std::alloc::{AllocError, Global};

impl<const WIDTH: usize> Standing for AddressRec<WIDTH> {
    ghost standing = { address_in WIDTH };

    ghost has = { HasAddress WIDTH };
}

impl<'a, const WIDTH: usize> AddressView<'a, WIDTH> {
    /// The address, in the order of its text.
    pub fn address(&self) -> [u8; WIDTH]
        ensures { result ≡ self.now.value.address }
    {
        array_in(self.bytes, self.place as usize)
    }

    /// The bits of an address that are compared.
    pub fn mask(&self) -> [u8; WIDTH]
        ensures { result ≡ self.now.value.mask }
    {
        array_in(self.bytes, self.place as usize + WIDTH)
    }

    /// Its context.
    pub fn context(&self) -> ContextView<'a>
        ensures { result ≡ record { place = self.now.place + WIDTH + WIDTH; value = self.now.value.context } }
    {
        ContextView::at(self.bytes, self.place + WIDTH as u32 + WIDTH as u32)
    }
}

impl<const WIDTH: usize> Entry for AddressRec<WIDTH> {
    ghost references = { address_references WIDTH };

    fn copy_of(
        view: &AddressView<'_, WIDTH>,
        alloc: Global,
    ) -> Result<AddressRec<WIDTH>, AllocError> {
        Ok(AddressRec {
            address: view.address(),
            mask: view.mask(),
            context: view.context().rec(alloc)?,
        })
    }

    fn dangling_in<N: Names>(view: &AddressView<'_, WIDTH>, names: &N) -> Option<Fault> {
        view.context().dangling(names)
    }
}

impl ReadAlone for Node {
    ghost reads = { address_at NODE_ADDRESS NODE_MASK 4 };

    fn pass(c: &mut Cursor<'_>) -> Result<(), Fault> {
        pass_address::<4>(c, NODE_ADDRESS, NODE_MASK)
    }
}

impl ReadAlone for Node6 {
    ghost reads = { address_at NODE6_ADDRESS NODE6_MASK 16 };

    fn pass(c: &mut Cursor<'_>) -> Result<(), Fault> {
        pass_address::<16>(c, NODE6_ADDRESS, NODE6_MASK)
    }
}

// Passes over the entry at the cursor, whose address and mask have those fields.
#[tactic(auto, unfolding(crate::specs::AddressRecord::address_at), using(pol_cursor::proofs::Facts::number_is, pol_cursor::proofs::Facts::string_is))]
fn pass_address<const WIDTH: usize>(
    c: &mut Cursor<'_>,
    address: Field,
    mask: Field,
) -> Result<(), Fault>
    requires { WIDTH ≤ 16 }
    ensures exact { Answers (λ _. address_in WIDTH c.old.bytes c.old.place) result (address_at address mask WIDTH) c.old c.new }
    ensures stands { OnOk result (HasAddress WIDTH c.old.bytes c.old.place) }
{
    c.take(WIDTH as u32, address)?;
    c.take(WIDTH as u32, mask)?;
    read_context(c)?;
    Ok(())
}

impl<const WIDTH: usize> Written for AddressRec<WIDTH> {
    ghost spelling = { spell_address };

    fn write(&self, out: &mut Vec<u8>) -> Result<(), AllocError> {
        let address = Part::Bytes(&self.address);
        let mask = Part::Bytes(&self.mask);
        (address, mask, &self.context).write(out)
    }
}
