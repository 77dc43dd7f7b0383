// Rules that are gathered with their ends.
ghost use Rattle.std.specs.Prelude.{◌≡◌, ◌++◌, ◌∷◌, [], true, Some, OnOk, slice_get};
ghost use Rattle.pol_file.specs.declared.Parts.{Parts};
ghost use Rattle.pol_read.specs.StoredRules.{stored, stored_rules};
ghost use Rattle.pol_read.specs.DeclaredRules.{IsDeclaredRule};
ghost use Rattle.pol_expand.specs.JoinedTypes.{has_type_ends};
ghost use Rattle.rules_between.specs.Inner.RuleTables.{AreEndsOf};

use pol_read::{Policy, Rule};
use std::alloc::{AllocError, Global};

/// Rules that are gathered one by one, with their ends, each at the place of its number.
#[derive(Drop)]
pub struct RulesWithEnds {
    pub rules: Vec<u32>,
    pub sources: Vec<u32>,
    pub targets: Vec<u32>,
}

impl RulesWithEnds {
    /// No rule yet.
    pub fn new(alloc: Global) -> RulesWithEnds
        ensures none { result.rules.items ≡ [] }
        ensures ends { (policy : Parts) → AreEndsOf policy result.rules.items result.sources.items result.targets.items }
    {
        RulesWithEnds {
            rules: Vec::new(alloc),
            sources: Vec::new(alloc),
            targets: Vec::new(alloc),
        }
    }

    /// Adds the rule of a number, whose ends are types and attributes.
    pub fn add(
        &mut self,
        policy: &Policy<'_>,
        number: u32,
        rule: &Rule<'_>,
    ) -> Result<(), AllocError>
        requires before { AreEndsOf policy.now self.old.rules.items self.old.sources.items self.old.targets.items }
        requires rule { slice_get (stored_rules policy.now) number ≡ Some (stored rule.now) }
        requires declared { IsDeclaredRule policy.now (stored rule.now) }
        requires types { has_type_ends rule.now.kind ≡ true }
        ensures rules { OnOk result (self.new.rules.items ≡ self.old.rules.items ++ number ∷ []) }
        ensures ends { OnOk result (AreEndsOf policy.now self.new.rules.items self.new.sources.items self.new.targets.items) }
    {
        // the policy was accepted, and so its types have values within their table
        policy.is_accepted();
        self.rules.push(number)?;
        self.sources.push(rule.source)?;
        self.targets.push(rule.target)?;
        Ok(())
    }
}
