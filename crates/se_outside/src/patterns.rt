// What builds patterns out of texts, as the tools see it.
ghost use Rattle.se_outside.specs.Patterns.{Builds, PatternsState};

use regex::Regex;
use std::alloc::Global;

/// Why a text gave no pattern.
#[derive(Clone, Copy, Debug, PartialEq, Eq)]
pub enum PatternError {
    /// The text is no pattern, or nests too deep.
    Syntax,
    /// The pattern was refused for another cause, as for its size.
    Refused,
    /// Out of memory.
    Memory,
}

/// The two causes that speak of the text.
#[derive(Clone, Copy, Debug, PartialEq, Eq)]
pub enum PatternKind {
    /// The text is no pattern, or nests too deep.
    Syntax,
    /// The pattern was refused for another cause, as for its size.
    Refused,
}

/// What builds patterns of the crate `regex` out of their texts.
pub trait Patterns {
    /// What is known of it: the texts that it was asked for, where it tells them, that of each call but those that ran out of memory; and
    /// a count of refusals, which never falls and rises with each `Refused`.
    ghost state: { Self → PatternsState };

    /// Builds the pattern that a text is.
    fn build(&mut self, alloc: Global, text: &str) -> Result<Regex, PatternError>
        ensures { Builds (state self.old) (state self.new) text.now result };
}
