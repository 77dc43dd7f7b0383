//! The entry of an initial SID, owned.

use pol_mls::ContextRec;

/// The context of an initial SID, owned.
#[derive(Drop)]
pub struct SidRec {
    /// The number of the initial SID.
    pub sid: u32,
    /// Its context.
    pub context: ContextRec,
}
