use pol_bitmap::SetBits;

/// Members of one source of an entry: all of them, or those from a target on.
#[derive(Drop)]
pub struct Row<'a> {
    /// The number of the rule.
    pub rule: u32,
    /// The source.
    pub source: u32,
    /// The targets, rising.
    pub targets: SetBits<'a>,
}
