//! The entry of a range of ports, owned.

use pol_mls::ContextRec;

/// The context of a range of ports, owned.
#[derive(Drop)]
pub struct PortRec {
    /// The number of the protocol.
    pub protocol: u32,
    /// The lowest port.
    pub low: u32,
    /// The highest port.
    pub high: u32,
    /// Their context.
    pub context: ContextRec,
}
