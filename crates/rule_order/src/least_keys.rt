// Of rules that are gathered to be listed, those that are listed first.
ghost use Rattle.std.specs.Prelude.{◌≡◌, ◌-◌, ◌∷◌, [], ◌++◌, ◌≤◌, ℕ, List, IfOk, OnOk, Some, length, option_map, slice_get, take};
ghost use Rattle.pol_file.specs.declared.Parts.{Parts};
ghost use Rattle.pol_read.specs.StoredRules.{ends_of, stored_rules};
ghost use Rattle.rule_order.specs.ListedOrder.{in_rule_order};
ghost use Rattle.rule_order.specs.LeastKeys.{AreLeast, is_behind};

use crate::key_list::{numbers_of, sorted_keys};
use crate::keys::Key;
use pol_read::{Policy, RuleEnds};
use std::alloc::{AllocError, Global};

// How many keys are gathered behind the least ones, at least, before they are sorted.
const MORE_KEYS: usize = 4096;

/// Stored rules that are gathered to be listed, all of one policy, which each call is told, of which those that are listed first are
/// kept, `count` of them at most. Contracts say whose keys they are.
///
/// When twice as many keys are there as are to be kept, and 8,192 at least, they are put in order, and the least are left; a key behind
/// the last of them is not added any more. So it takes memory for a multiple of `count`, 20 bytes a key, however many rules are added.
#[derive(Drop)]
pub struct LeastKeys {
    pub(crate) keys: Vec<Key>,
    pub(crate) count: usize,
    // The last of the least keys when they were left, where some were.
    pub(crate) last: Option<Key>,
}

impl LeastKeys {
    /// No rules yet, of which the first `count` are to be kept.
    pub fn new(alloc: Global, count: usize) -> LeastKeys
        ensures count { result.count ≡ count }
        ensures none { (policy : Parts) → AreLeast policy [] result }
    {
        LeastKeys {
            keys: Vec::new(alloc),
            count,
            last: None,
        }
    }

    /// Adds a stored rule of the policy, by its number and its ends.
    #[inline(always)]
    pub fn add_ends(
        &mut self,
        policy: &Policy<'_>,
        number: u32,
        ends: RuleEnds,
    ) -> Result<(), AllocError>
        requires { option_map ends_of (slice_get (stored_rules policy.now) number) ≡ Some ends }
        ensures count { self.new.count ≡ self.old.count }
        ensures added { OnOk result ((numbers : List ℕ) → AreLeast policy.now numbers self.old → AreLeast policy.now (numbers ++ number ∷ []) self.new) }
    {
        // what the rules of an accepted policy name is declared
        policy.is_accepted();
        let key = Key::of(policy.symbols(), number, ends);
        if is_behind(self.last, key) {
            return Ok(());
        }
        self.keys.push(key)?;
        if self.keys.len() / 2 >= self.count.max(MORE_KEYS) {
            self.leave_least(policy);
        }
        Ok(())
    }

    // Leaves the least keys alone.
    #[inline(never)]
    fn leave_least(&mut self, policy: &Policy<'_>)
        requires { self.old.count ≤ length self.old.keys.items }
        ensures count { self.new.count ≡ self.old.count }
        ensures least { (numbers : List ℕ) → AreLeast policy.now numbers self.old → AreLeast policy.now numbers self.new }
    {
        // what the rules of an accepted policy name is declared
        policy.is_accepted();
        self.keys.sort_unstable();
        self.keys.truncate(self.count);
        self.last = last_of(&self.keys);
    }

    /// The numbers of those that are listed first, in the order in which rules are listed.
    pub fn sorted(self, alloc: Global, policy: &Policy<'_>) -> Result<Vec<u32>, AllocError>
        ensures { IfOk result (λ sorted. (numbers : List ℕ) → AreLeast policy.now numbers self → sorted.items ≡ take self.count (in_rule_order policy.now numbers)) }
    {
        // what the rules of an accepted policy name is declared
        policy.is_accepted();
        let LeastKeys { keys, count, .. } = self;
        let mut keys = sorted_keys(keys);
        keys.truncate(count);
        numbers_of(alloc, &keys)
    }
}

// Whether a key comes behind the last, where there is one.
#[inline(always)]
fn is_behind(last: Option<Key>, key: Key) -> bool
    ensures { result ≡ is_behind last key }
{
    match last {
        Some(last) => last < key,
        None => false,
    }
}

// The last of some keys.
fn last_of(keys: &[Key]) -> Option<Key>
    ensures { result ≡ slice_get keys.now (length keys.now - 1) }
{
    keys.last().copied()
}
