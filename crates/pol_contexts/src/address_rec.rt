//! The entry of addresses, IPv4 or IPv6, owned.

use pol_mls::ContextRec;

/// The context of addresses of that many bytes, owned.
#[derive(Drop)]
pub struct AddressRec<const WIDTH: usize> {
    /// The address, in the order of its text.
    pub address: [u8; WIDTH],
    /// The bits of an address that are compared.
    pub mask: [u8; WIDTH],
    /// Their context.
    pub context: ContextRec,
}
