/// The header of a policy, owned.
#[derive(Clone, Copy, Debug, PartialEq, Eq)]
pub struct HeaderRec {
    /// The version of the format, 28 to 34.
    pub version: u32,
    /// Bit 0x1 is MLS, 0x2 refuses unknown classes and 0x4 allows them. Other bits are kept and have no meaning.
    pub config: u32,
}
