//! Rules by the numbers of their sets.

/// A rule, whose sources, targets and given numbers are sets of a pool, by their numbers there.
#[derive(Clone, Copy, Debug, PartialEq, Eq, PartialOrd, Ord)]
pub struct RuleForm {
    pub sources: u32,
    pub targets: u32,
    pub class: u32,
    /// A file name, or 0 where there is none.
    pub name: u32,
    /// A condition, or 0 where there is none.
    pub condition: u32,
    pub given: u32,
}
