// Patterns that are built in memory, and refused as it is told.
ghost use Rattle.std.specs.Prelude.{◌≡◌};

use crate::plan::Plan;
use crate::regex_patterns::read_pattern;
use crate::{PatternError, Patterns};
use regex::Regex;
use std::alloc::{AllocError, Global};

/// Builds patterns by the crate `regex`, for tests, and tells the texts that it was asked for. Calls of `build` are counted
/// from 1; the count stands still at the last value of a `u64`. Each `Refused` is counted, and no other answer.
#[derive(Drop)]
pub struct MemPatterns {
    alloc: Global,
    texts: Vec<String>,
    plan: Plan,
    refusals: u64,
}

impl MemPatterns {
    ghost use Rattle.std.specs.Prelude.{OnOk, OnErr, Err};
    ghost use Rattle.se_outside.specs.MemPatterns.{mem_patterns, new_patterns, with_plan};
    ghost use Rattle.se_outside.specs.Patterns.{IsRead};
    ghost use Rattle.se_outside.specs.Plan.{with_failing, Called, IsDue};
    ghost use Rattle.se_outside.specs.declared.patterns.PatternError.TheVariants.{Refused};

    /// Asked for nothing yet, and no call that is refused.
    pub fn new(alloc: Global) -> MemPatterns
        ensures { mem_patterns result ≡ new_patterns }
    {
        MemPatterns {
            alloc,
            texts: Vec::new(alloc),
            plan: Plan::new(alloc),
            refusals: 0,
        }
    }

    /// That call of `build` is refused, counted from 1. After an error, of memory alone, all is as it was.
    pub fn fail(&mut self, call: u64) -> Result<(), AllocError>
        ensures ok { OnOk result (mem_patterns self.new
            ≡ with_plan (mem_patterns self.old) (with_failing (mem_patterns self.old).orders call)) }
        ensures err { OnErr result (mem_patterns self.new ≡ mem_patterns self.old) }
    {
        self.plan.fail(call)
    }

    // Builds a pattern, or refuses where this call is told to, and counts nothing yet.
    fn build_or_refuse(&mut self, alloc: Global, text: &str) -> Result<Regex, PatternError>
        ensures read { IsRead text.now result }
        ensures called { Called (mem_patterns self.old).orders (mem_patterns self.new).orders }
        ensures due { IsDue (mem_patterns self.new).orders → result ≡ Err Refused }
        ensures texts { self.new.texts ≡ self.old.texts }
        ensures refusals { self.new.refusals ≡ self.old.refusals }
    {
        if self.plan.next_fails() {
            return Err(PatternError::Refused);
        }
        read_pattern(alloc, text)
    }
}

impl Patterns for MemPatterns {
    ghost use Rattle.se_outside.specs.MemPatterns.{mem_patterns, told_patterns};
    ghost use Rattle.se_outside.specs.Patterns.{Builds, IsRefusedOrMemory, RefusesOnRefused};
    ghost use Rattle.se_outside.specs.Plan.{Called, IsDue};

    ghost state = { λ p. told_patterns (mem_patterns p) };

    /// Builds by `regex`. A call that was told to be refused is refused, whatever the text, but where memory runs out.
    fn build(&mut self, alloc: Global, text: &str) -> Result<Regex, PatternError>
        ensures builds { Builds (told_patterns (mem_patterns self.old)) (told_patterns (mem_patterns self.new)) text.now result }
        ensures called { Called (mem_patterns self.old).orders (mem_patterns self.new).orders }
        ensures due { IsDue (mem_patterns self.new).orders → IsRefusedOrMemory result }
        ensures counted { RefusesOnRefused (mem_patterns self.old).refusals (mem_patterns self.new).refusals result }
    {
        let built = self.build_or_refuse(alloc, text);
        if let Err(PatternError::Memory) = built {
            return built;
        }
        let Ok(note) = String::from_str(self.alloc, text) else {
            return Err(PatternError::Memory);
        };
        let Ok(()) = self.texts.push(note) else {
            return Err(PatternError::Memory);
        };
        if let Err(PatternError::Refused) = built {
            self.refusals = self.refusals.saturating_add(1);
        }
        built
    }
}
