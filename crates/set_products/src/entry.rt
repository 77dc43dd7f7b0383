/// A rule and the numbers of two sets of a pool, those of its sources and of its targets.
#[derive(Clone, Copy, Debug, PartialEq, Eq)]
pub struct Entry {
    /// The number of the rule, which no call looks at.
    pub rule: u32,
    /// The number of the set of sources, below the pool's length.
    pub sources: u32,
    /// The number of the set of targets, below the pool's length.
    pub targets: u32,
}

/// A rule from one source to one target.
#[derive(Clone, Copy, Debug, PartialEq, Eq)]
pub struct Single {
    /// The number of the rule.
    pub rule: u32,
    /// A bit of the set of sources.
    pub source: u32,
    /// A bit of the set of targets.
    pub target: u32,
}

/// A position among the members of entries: at a member, or at the end.
///
/// It has a meaning for the [`Places`](crate::Places) that it comes from alone, and costs nothing to copy.
#[derive(Clone, Copy, Debug, PartialEq, Eq)]
pub struct Place {
    pub(crate) entry: usize,
    pub(crate) source: u32,
    pub(crate) target: u32,
}
