// The types that may change to a type.
ghost use Rattle.std.specs.Prelude.{◌≡◌, IfOk, true};
ghost use Rattle.std.specs.List.{filter};
ghost use Rattle.std.specs.List.Sorted.{IsStrictlyIncreasing};
ghost use Rattle.pol_bitmap.specs.Nodes.{bits_of};
ghost use Rattle.pol_expand.specs.JoinedTypes.{any_joins, sources_to};
ghost use Rattle.rules_between.specs.ChosenRules.{common_sources};
ghost use Rattle.pol_expand.specs.PlainTypes.{is_type_value};
ghost use Rattle.dom_trans.specs.Inner.Targets.{AreEntering, AreSources};
ghost use Rattle.rule_grants.specs.Grants.{granting_rules, grants};
ghost use Rattle.rule_grants.specs.Names.{process, dyntransition, setcurrent, file, execute};
ghost use Rattle.dom_trans.specs.Inner.RuleLists.{rules_of, rules_to};

use crate::dom_rules::DomRules;
use crate::grant::Grant;
use pol_bitmap::Set;
use pol_expand::is_type;
use rules_between::ChosenRules;
use std::alloc::{AllocError, Global};

impl<'p> DomRules<'p> {
    /// The types that may change to a type, itself among them where it may.
    pub fn sources(&self, alloc: Global, b: u32) -> Result<Set, AllocError>
        ensures { IfOk result (λ set. AreSources self.now b (bits_of set)) }
    {
        let entering = self.entering(alloc, b)?;
        let turning = self.turning(alloc, b)?;
        entering.union(alloc, &turning)
    }

    // The types that may change to a type by executing a file: they may execute one of its entry points, and ask for it, or start it
    // by default.
    fn entering(&self, alloc: Global, b: u32) -> Result<Set, AllocError>
        ensures { IfOk result (λ set. AreEntering self.now b (bits_of set)) }
    {
        if !is_type(self.policy(), b) {
            return Set::empty(alloc);
        }
        let points = self.points(alloc, b)?;
        let allowed = self.list(Grant::Transition).sources_of(alloc, b)?;
        let executing = self.list(Grant::Execute).sources_of_any(alloc, &points)?;
        let among = allowed.common(alloc, &executing)?;
        let asking = self.having(alloc, Grant::Setexec, &among)?;
        let starting = self.starting(alloc, b, &points)?;
        let default = among.common(alloc, &starting)?;
        asking.union(alloc, &default)
    }

    // The types that start a process from one of some types, which they may execute, and have a type as its default domain.
    fn starting(&self, alloc: Global, b: u32, points: &Set) -> Result<Set, AllocError>
        requires { is_type_value self.now.policy b ≡ true }
        ensures { IfOk result (λ set. bits_of set ≡ common_sources self.now.policy (rules_to self.now b) (granting_rules self.now file execute) (bits_of points.now)) }
    {
        let numbers = self.defaults.rules_to(alloc, b)?;
        if numbers.is_empty() {
            return Set::empty(alloc);
        }
        let rules = ChosenRules::build(alloc, self.policy(), self.types, numbers)?;
        rules.common_sources(alloc, self.list(Grant::Execute), points)
    }

    // The types that may change to a type without executing a file.
    fn turning(&self, alloc: Global, b: u32) -> Result<Set, AllocError>
        ensures { IfOk result (λ set. bits_of set ≡ filter (λ a. grants self.now a a process setcurrent) (sources_to self.now.policy (granting_rules self.now process dyntransition) b)) }
    {
        let allowed = self.list(Grant::Dyntransition).sources_of(alloc, b)?;
        self.having(alloc, Grant::Setcurrent, &allowed)
    }

    // Of some types, the ones that a grant is given to, on themselves.
    fn having(&self, alloc: Global, grant: Grant, types: &Set) -> Result<Set, AllocError>
        requires { IsStrictlyIncreasing (bits_of types.now) }
        ensures { IfOk result (λ set. bits_of set ≡ filter (λ a. any_joins self.now.policy (rules_of self.now grant) a a) (bits_of types.now)) }
    {
        let mut found = Vec::new(alloc);
        for a in types.bits() {
            if self.list(grant).has_between(alloc, a, a)? {
                found.push(a)?;
            }
        }
        Set::from_rising(alloc, &found)
    }
}
