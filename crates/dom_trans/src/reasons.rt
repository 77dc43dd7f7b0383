// The rules behind a transition.
ghost use Rattle.std.specs.Prelude.{◌≡◌, ◌==◌, [], IfOk, if◌then◌else◌, length, map, not};
ghost use Rattle.rules_between.specs.ChosenRules.{rules_between};
ghost use Rattle.dom_trans.specs.Transitions.{entries, is_standard, is_dynamic};
ghost use Rattle.dom_trans.specs.ReasonLists.{entry_reason, reasons_between};
ghost use Rattle.dom_trans.specs.Inner.RuleLists.{is_allowed};

use crate::dom_rules::DomRules;
use crate::grant::Grant;
use pol_cursor::{NumberList, OwnedList};
use pol_expand::are_two_types;
use rules_between::ChosenRules;
use std::alloc::{AllocError, Global};

/// The rules behind one entry type of a transition, each list in the order in which rules are listed.
pub struct EntryReason {
    /// The value of the type.
    pub entry: u32,
    /// The rules that make it an entry point of the new domain.
    pub entrypoint: NumberList,
    /// The rules that let the old domain execute it.
    pub execute: NumberList,
    /// The type_transitions that make the new domain the default.
    pub default: NumberList,
}

// Its parts go in one call, wherever it is dropped.
impl Drop for EntryReason {
    fn drop(self) {
        let EntryReason {
            entry,
            entrypoint,
            execute,
            default,
        } = self;
    }
}

/// The reasons of the entry types of a transition, by their values, rising.
pub type EntryReasonList = OwnedList<EntryReason>;

/// The numbers of the rules behind a transition, each list in the order in which rules are listed. A way of transition that does not
/// hold has none.
pub struct Reasons {
    pub transition: NumberList,
    pub setexec: NumberList,
    pub entries: EntryReasonList,
    pub dyntransition: NumberList,
    pub setcurrent: NumberList,
}

// Its parts go in one call, wherever it is dropped.
impl Drop for Reasons {
    fn drop(self) {
        let Reasons {
            transition,
            setexec,
            entries,
            dyntransition,
            setcurrent,
        } = self;
    }
}

impl<'p> DomRules<'p> {
    // Whether a type may change to another by executing a file.
    fn is_allowed(&self, alloc: Global, a: u32, b: u32) -> Result<bool, AllocError>
        ensures { IfOk result (λ holds. holds ≡ is_allowed self.now a b) }
    {
        if !are_two_types(self.policy(), a, b) {
            return Ok(false);
        }
        self.list(Grant::Transition).has_between(alloc, a, b)
    }

    // The entries of the transition by executing a file, rising. There are none where there is no such transition.
    fn standard_entries(&self, alloc: Global, a: u32, b: u32) -> Result<Vec<u32>, AllocError>
        ensures found { IfOk result (λ found. found.items ≡ (if is_standard self.now a b then entries self.now a b else [])) }
        ensures some { IfOk result (λ found. is_standard self.now a b ≡ not (length found.items == 0)) }
    {
        if self.is_allowed(alloc, a, b)? {
            self.entries(alloc, a, b)
        } else {
            Ok(Vec::new(alloc))
        }
    }

    // Whether there is a transition without one.
    fn is_dynamic(&self, alloc: Global, a: u32, b: u32) -> Result<bool, AllocError>
        ensures { IfOk result (λ holds. holds ≡ is_dynamic self.now a b) }
    {
        if !are_two_types(self.policy(), a, b) {
            return Ok(false);
        }
        if self.may_change(alloc, a)? {
            return self.list(Grant::Dyntransition).has_between(alloc, a, b);
        }
        Ok(false)
    }

    // The rules of an entry from a type to a domain.
    fn entry_reason(
        &self,
        alloc: Global,
        a: u32,
        b: u32,
        entry: u32,
    ) -> Result<EntryReason, AllocError>
        ensures { IfOk result (λ reason. reason ≡ entry_reason self.now a b entry) }
    {
        Ok(EntryReason {
            entry,
            entrypoint: OwnedList::from_vec(self.list(Grant::Entrypoint).between(alloc, b, entry)?),
            execute: OwnedList::from_vec(self.list(Grant::Execute).between(alloc, a, entry)?),
            default: self.defaults_between(alloc, a, b, entry)?,
        })
    }

    // The rules of some entries from a type to a domain.
    fn entry_reasons(
        &self,
        alloc: Global,
        a: u32,
        b: u32,
        entries: &[u32],
    ) -> Result<EntryReasonList, AllocError>
        ensures { IfOk result (λ reasons. reasons ≡ map (entry_reason self.now a b) entries.now) }
    {
        let mut reasons = Vec::new(alloc);
        for entry in entries {
            reasons.push(self.entry_reason(alloc, a, b, *entry)?)?;
        }
        Ok(OwnedList::from_vec(reasons))
    }

    /// The rules behind a transition.
    pub fn reasons(&self, alloc: Global, a: u32, b: u32) -> Result<Reasons, AllocError>
        ensures { IfOk result (λ reasons. reasons ≡ reasons_between self.now a b) }
    {
        let entries = self.standard_entries(alloc, a, b)?;
        let standard = !entries.is_empty();
        let dynamic = self.is_dynamic(alloc, a, b)?;
        Ok(Reasons {
            transition: between_where(alloc, standard, self.list(Grant::Transition), a, b)?,
            setexec: between_where(alloc, standard, self.list(Grant::Setexec), a, a)?,
            entries: self.entry_reasons(alloc, a, b, &entries)?,
            dyntransition: between_where(alloc, dynamic, self.list(Grant::Dyntransition), a, b)?,
            setcurrent: between_where(alloc, dynamic, self.list(Grant::Setcurrent), a, a)?,
        })
    }
}

// Of some rules, the ones that join two types, where a test holds.
fn between_where(
    alloc: Global,
    holds: bool,
    rules: &ChosenRules<'_>,
    source: u32,
    target: u32,
) -> Result<NumberList, AllocError>
    ensures { IfOk result (λ found. found ≡ (if holds then rules_between rules.now.policy rules.now.rules source target else [])) }
{
    if holds {
        Ok(OwnedList::from_vec(rules.between(alloc, source, target)?))
    } else {
        Ok(OwnedList::from_vec(Vec::new(alloc)))
    }
}
