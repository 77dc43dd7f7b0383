//! The entry of an InfiniBand device at a port, owned.

use pol_cursor::ByteList;
use pol_mls::ContextRec;

/// The context of an InfiniBand device at a port, owned.
#[derive(Drop)]
pub struct IbEndPortRec {
    /// The number of the port.
    pub port: u32,
    /// The name of the device.
    pub name: ByteList,
    /// Its context.
    pub context: ContextRec,
}
