// What a rule is sorted by: ranks in place of names, so that no name is compared.
ghost use Rattle.std.specs.Prelude.{◌≡◌, IfSome};
ghost use Rattle.std.proofs.Common.{rules};
ghost use Rattle.std.specs.Cmp.{partial_order_from_own_ties, partial_order_from_total};
ghost use Rattle.std.specs.Cmp.Rules.{comparing};
ghost use Rattle.std.specs.Ordering.{as_partial_cmp};
ghost use Rattle.pol_symbols.specs.PolicySymbols.{rank_in};
ghost use Rattle.pol_read.specs.RuleKinds.{source_table, target_table};
ghost use Rattle.rule_order.specs.Inner.Keys.{AreWords, key_of_word, names_number};
ghost use Rattle.rule_order.specs.RuleKeys.{key_of_ends, keys_total, plain_cmp, rank_or_zero};

use pol_fields::TableKind;
use pol_read::{RuleEnds, RuleKind};
use pol_symbols::Symbols;
use std::cmp::Ordering;

// How many values a u32 has.
const WORD: u128 = 0x1_0000_0000;

// How many ranks of ends and of classes, and how many numbers of rules, a word has room for.
const ENDS: u64 = 0x4000;

const CLASSES: u64 = 0x200;

const NUMBERS: u64 = 0x80_0000;

/// The key of a rule. Keys rise in the order in which rules are listed.
#[derive(Clone, Copy, PartialEq, Eq)]
pub struct Key {
    pub kind: u32,
    pub source: u32,
    pub target: u32,
    pub class: u32,
    pub number: u32,
}

impl Key {
    /// The key of a rule of these ends that has that number.
    #[inline(always)]
    pub fn of(symbols: &Symbols<'_>, number: u32, ends: RuleEnds) -> Key
        ensures { result ≡ key_of_ends symbols.now number ends }
    {
        Key {
            kind: ends.kind as u32,
            source: source_rank(symbols, ends.kind, ends.source),
            target: target_rank(symbols, ends.kind, ends.target),
            class: rank_or_zero(symbols, TableKind::Classes, ends.class),
            number,
        }
    }

    /// The key as one word, where its parts are small enough.
    #[inline(always)]
    pub fn word(&self) -> Option<u64>
        ensures { IfSome result (λ word. key_of_word word ≡ self.now) }
    {
        let source = self.source as u64;
        let target = self.target as u64;
        let class = self.class as u64;
        let number = self.number as u64;
        if self.kind < 16 && source < ENDS && target < ENDS && class < CLASSES && number < NUMBERS {
            let heads = self.kind as u64 * ENDS + source;
            let names = (heads * ENDS + target) * CLASSES + class;
            Some(names * NUMBERS + number)
        } else {
            None
        }
    }

    /// The key that a word is.
    pub fn of_word(word: u64) -> Key
        ensures { result ≡ key_of_word word }
    {
        let names = word / NUMBERS;
        let ends = names / CLASSES;
        let heads = ends / ENDS;
        Key {
            kind: (heads / ENDS) as u32,
            source: (heads % ENDS) as u32,
            target: (ends % ENDS) as u32,
            class: (names % CLASSES) as u32,
            number: number_of_word(word),
        }
    }

    // All but the number in one number, so that they are compared at once.
    fn names(&self) -> u128
        ensures exact { result ≡ names_number self.now }
        ensures words { AreWords self.now }
    {
        ((self.kind as u128 * WORD + self.source as u128) * WORD + self.target as u128) * WORD
            + self.class as u128
    }
}

impl Ord for Key {
    ghost cmp = { plain_cmp };

    ghost total = { keys_total };

    ghost matches_partial_cmp = { Prim.search (comparing, rules) };

    ghost matches_eq = { Prim.search (comparing, rules) };

    fn cmp(&self, other: &Key) -> Ordering {
        self.names()
            .cmp(&other.names())
            .then(self.number.cmp(&other.number))
    }
}

impl PartialOrd for Key {
    ghost partial_cmp = { as_partial_cmp plain_cmp };

    ghost laws = { partial_order_from_own_ties (partial_order_from_total keys_total) (Prim.search (comparing, rules)) };

    fn partial_cmp(&self, other: &Key) -> Option<Ordering> {
        Some(self.cmp(other))
    }
}

// The rank of a source of a rule of a kind. The table of each kind is named where it is asked, so that it is at hand.
#[inline(always)]
fn source_rank(symbols: &Symbols<'_>, kind: RuleKind, value: u32) -> u32
    ensures { result ≡ rank_or_zero (rank_in symbols.now (source_table kind) value) }
{
    match kind {
        RuleKind::RoleAllow | RuleKind::RoleTransition => {
            rank_or_zero(symbols, TableKind::Roles, value)
        }
        _ => rank_or_zero(symbols, TableKind::Types, value),
    }
}

// The rank of a target, in the same way.
#[inline(always)]
fn target_rank(symbols: &Symbols<'_>, kind: RuleKind, value: u32) -> u32
    ensures { result ≡ rank_or_zero (rank_in symbols.now (target_table kind) value) }
{
    match kind {
        RuleKind::RoleAllow => rank_or_zero(symbols, TableKind::Roles, value),
        _ => rank_or_zero(symbols, TableKind::Types, value),
    }
}

// The rank of a declared value in its table, or 0 where no primary record has it.
#[inline(always)]
fn rank_or_zero(symbols: &Symbols<'_>, table: TableKind, value: u32) -> u32
    ensures { result ≡ rank_or_zero (rank_in symbols.now table value) }
{
    match symbols.rank(table, value) {
        Some(rank) => rank,
        None => 0,
    }
}

/// The number of the key that a word is.
pub fn number_of_word(word: u64) -> u32
    ensures { result ≡ (key_of_word word).number }
{
    (word % NUMBERS) as u32
}
