//! What a rule between single numbers is known by.
ghost use Rattle.std.specs.Prelude.{◌≡◌};
ghost use Rattle.numbered_rules.specs.NumberedRules.{key_cmp, unconditioned};

use std::cmp::Ordering;

/// The key of a rule between single numbers. Keys are compared by their elements, one after the other.
#[derive(Clone, Copy, Debug, PartialEq, Eq)]
pub struct SingleKey {
    pub source: u32,
    pub target: u32,
    pub class: u32,
    /// A file name, or 0 where there is none.
    pub name: u32,
    /// A condition, or 0 where there is none.
    pub condition: u32,
}

/// What counts of what rules give.
#[derive(Clone, Copy, Debug, PartialEq, Eq)]
pub enum Counting {
    /// All of it.
    All,
    /// What stands without a condition does not count under one.
    Permissions,
}

impl SingleKey {
    /// The key without a condition.
    pub(crate) fn unconditioned(self) -> SingleKey
        ensures { result ≡ unconditioned self }
    {
        SingleKey {
            source: self.source,
            target: self.target,
            class: self.class,
            name: self.name,
            condition: 0,
        }
    }

    /// How it compares with another.
    pub(crate) fn compare(self, other: SingleKey) -> Ordering
        ensures { result ≡ key_cmp self other }
    {
        self.source
            .cmp(&other.source)
            .then(self.target.cmp(&other.target))
            .then(self.class.cmp(&other.class))
            .then(self.name.cmp(&other.name))
            .then(self.condition.cmp(&other.condition))
    }
}
