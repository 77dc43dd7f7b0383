//! The entry of a range of InfiniBand partition keys, owned.

use pol_mls::ContextRec;

/// The context of a range of InfiniBand partition keys, owned.
#[derive(Drop)]
pub struct IbPkeyRec {
    /// The prefix of the subnet, in the order of its text.
    pub prefix: [u8; 8],
    /// The lowest key.
    pub low: u32,
    /// The highest key.
    pub high: u32,
    /// Their context.
    pub context: ContextRec,
}
