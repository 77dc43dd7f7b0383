// Patterns as the crate `regex` builds them. The edge that is trusted.
ghost use Rattle.std.specs.Prelude.{◌≡◌};
ghost use Rattle.se_outside.specs.Patterns.{Builds, IsRead, RefusesOnRefused};

use crate::{PatternError, Patterns};
use regex::Regex;
use std::alloc::Global;

/// Builds patterns by the crate `regex`, and counts where that refuses a text for another cause than its grammar or memory.
/// It tells no texts.
#[derive(Drop)]
pub struct RegexPatterns {
    refusals: u64,
}

impl RegexPatterns {
    ghost use Rattle.se_outside.specs.RegexPatterns.{regex_patterns};

    /// Nothing was refused yet.
    pub fn new() -> RegexPatterns
        ensures { (regex_patterns result).refusals ≡ 0 }
    {
        RegexPatterns { refusals: 0 }
    }
}

impl Patterns for RegexPatterns {
    ghost use Rattle.se_outside.specs.RegexPatterns.{regex_patterns};

    ghost state = { regex_patterns };

    /// Builds by `regex`.
    fn build(&mut self, alloc: Global, text: &str) -> Result<Regex, PatternError>
        ensures builds { Builds (regex_patterns self.old) (regex_patterns self.new) text.now result }
        ensures counted { RefusesOnRefused (regex_patterns self.old).refusals (regex_patterns self.new).refusals result }
    {
        let built = read_pattern(alloc, text);
        if let Err(PatternError::Refused) = built {
            self.refusals = self.refusals.saturating_add(1);
        }
        built
    }
}

/// Builds by `regex`, and counts nothing.
pub fn read_pattern(alloc: Global, text: &str) -> Result<Regex, PatternError>
    ensures { IsRead text.now result }
{
    match Regex::new(alloc, text) {
        Ok(regex) => Ok(regex),
        Err(regex::Error::Syntax(_)) => Err(PatternError::Syntax),
        Err(regex::Error::OutOfMemory) => Err(PatternError::Memory),
        Err(regex::Error::CompiledTooBig | regex::Error::Internal) => Err(PatternError::Refused),
    }
}
