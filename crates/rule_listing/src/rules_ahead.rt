//! Rules of a policy that are looked at some at a time, each before it is asked for.

ghost use Rattle.std.specs.Prelude.{◌≡◌, ◌<◌, ◌≤◌, [], All, MatchOption, length, map, take};
ghost use Rattle.pol_read.specs.StoredRules.{stored_rules};
ghost use Rattle.rule_listing.specs.ReadRules.{IsOfFirst, PassesNumber, is_plain};

use crate::listed_rule::{ListedRule, is_plain};
use pol_read::Policy;
use std::marker::Model;

// How many rules are looked at together at most.
const MOST: usize = 32;

/// The stored rules of some numbers, one after the other. Where the next one is asked for, it and the rules after it are looked at in a
/// loop of its own: rules that are listed stand far apart in the file, and the processor fetches what a small loop asks side by side.
/// Contracts see the policy, and the numbers that are left.
#[derive(Drop)]
pub struct RulesAhead<'q, 'p, 'a> {
    policy: &'p Policy<'a>,
    // from that of the first rule on that was looked at
    numbers: &'q [u32],
    // how many were looked at, and which of them are plain
    count: usize,
    plain: [bool; 32],
    // how many of the numbers were passed over
    next: usize,
}

impl<'q, 'p, 'a> Model for RulesAhead<'q, 'p, 'a> {
    ghost use Rattle.std.specs.Prelude.{◌≤◌, drop, length};
    ghost use Rattle.rule_listing.specs.ReadRules.{AreNumbers, RulesLeft};

    ghost Value = { RulesLeft };

    ghost view = { λ ahead. record { policy = ahead.policy.now; numbers = drop ahead.next ahead.numbers.now } };

    ghost invariant = { λ ahead. AreNumbers ahead.policy.now ahead.numbers.now × (ahead.next ≤ length ahead.numbers.now) };
}

impl<'q, 'p, 'a> RulesAhead<'q, 'p, 'a> {
    /// The rules of these numbers. None is looked at yet.
    pub fn new(policy: &'p Policy<'a>, numbers: &'q [u32]) -> RulesAhead<'q, 'p, 'a>
        requires { All (λ number. number < length (stored_rules policy.now)) numbers.now }
        ensures { result ≡ record { policy = policy.now; numbers = numbers.now } }
    {
        RulesAhead {
            policy,
            numbers,
            count: 0,
            plain: [false; MOST],
            next: 0,
        }
    }

    /// The next rule.
    pub fn front(&mut self) -> Option<ListedRule>
        ensures left { self.new ≡ self.old }
        ensures rule { MatchOption result (self.old.numbers ≡ []) (λ rule. IsOfFirst self.old.policy self.old.numbers rule) }
    {
        if self.next >= self.count {
            self.look_ahead();
        }
        let number = self.numbers.get(self.next)?;
        Some(ListedRule {
            number: *number,
            plain: self.plain[self.next % MOST],
        })
    }

    // Looks at the next rules.
    #[inline(always)]
    fn look_ahead(&mut self)
        ensures { self.new ≡ self.old }
    {
        self.numbers = &self.numbers[self.next..];
        self.next = 0;
        self.count = MOST.min(self.numbers.len());
        self.plain = which_are_plain(self.policy, &self.numbers[..self.count]);
    }

    /// Passes over the next rule, and answers whether there was one. One that was not looked at is passed over so.
    pub fn pass(&mut self) -> bool
        ensures policy { self.new.policy ≡ self.old.policy }
        ensures numbers { PassesNumber self.old.numbers self.new.numbers result }
    {
        if self.next >= self.numbers.len() {
            return false;
        }
        self.next += 1;
        true
    }
}

// Which of the rules of these numbers are access vectors of the table that give permissions or a default.
fn which_are_plain(policy: &Policy<'_>, numbers: &[u32]) -> [bool; 32]
    requires { length numbers.now ≤ 32 }
    ensures { take (length numbers.now) result ≡ map (is_plain policy.now.rules.table) numbers.now }
{
    let mut plain = [false; MOST];
    for place in 0..numbers.len() {
        plain[place] = is_plain(policy, numbers[place]);
    }
    plain
}
