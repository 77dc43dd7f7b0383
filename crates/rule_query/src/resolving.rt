// Criteria are looked up, word by word.
ghost use Rattle.std.specs.Prelude.{◌≡◌, OnOk};
ghost use Rattle.rule_query.specs.GivenCriteria.{shown};
ghost use Rattle.rule_query.specs.Inner.Resolved.{AreSameTests, Gains};
ghost use Rattle.rule_query.specs.Inner.ResolvingWords.{Asks, BuildsWord};
ghost use Rattle.rule_query.specs.Resolving.{Resolves};
ghost use Rattle.rule_query.specs.Inner.LookedUp.{HasPatternWord, IsMapIfMade};

use crate::given::{GivenCriterion, in_word_order};
use crate::query::Query;
use crate::refusing::{Refusal, is_pattern_word, refusal_of};
use crate::test_making::test_of;
use crate::tests::Test;
use pol_expand::TypeMap;
use pol_read::Policy;
use pol_symbols::Symbols;
use regex::Regex;
use rule_criteria::Criteria;
use se_outside::{PatternError, PatternKind, Patterns};
use std::alloc::{AllocError, Global};

/// Why criteria were not looked up: the number of the word that is refused, and what it is refused for.
#[derive(Clone, Copy, Debug, PartialEq, Eq)]
pub enum QueryError {
    /// A name of the word is not there.
    UnknownName(u64),
    /// An element of the word is no number and no range.
    BadNumber(u64),
    /// The pattern that the word is was not built.
    BadPattern(u64, PatternKind),
    /// Out of memory.
    Memory,
}

impl From<AllocError> for QueryError {
    ghost use Rattle.std.specs.Prelude.{◌≡◌};
    ghost use Rattle.rule_query.specs.declared.resolving.QueryError.TheVariants.{Memory};

    ghost from_gives = { λ _ error. error ≡ Memory };

    fn from(_: AllocError) -> QueryError {
        QueryError::Memory
    }
}

/// Looks up the names, numbers and patterns of criteria, word by word in the order of their words, in a policy. The first word that is
/// refused ends it. Each pattern is built once, by `patterns`, and matched here against all names of its tables. The map of the policy's
/// types is made once, and only where a criterion asks what types expand to.
pub fn resolve<P: Patterns>(
    alloc: Global,
    criteria: &Criteria,
    policy: &Policy<'_>,
    patterns: &mut P,
) -> Result<Query, QueryError>
    ensures { Resolves policy.now criteria.now (P.state patterns.old).asked (P.state patterns.new).asked (P.state patterns.old).refusals (P.state patterns.new).refusals result }
{
    let order = in_word_order(alloc, criteria)?;
    let mut types = None;
    let mut tests = Vec::new(alloc);
    for given in &order {
        let pattern = ask(alloc, policy.symbols(), &criteria.kinds, given, patterns)?;
        add_test(alloc, policy, &mut types, given, &pattern, &mut tests)?;
    }
    put_ends_first(&mut tests)?;
    Ok(Query {
        kinds: criteria.kinds,
        tests,
    })
}

// Puts the tests of ends and classes before those that a rule is read whole for, which take longer.
fn put_ends_first(tests: &mut Vec<Test>) -> Result<(), AllocError>
    ensures { AreSameTests tests.old.items tests.new.items }
{
    tests.sort_by_key(|test| test.reads_rule())
}

// Adds the test of a criterion.
fn add_test(
    alloc: Global,
    policy: &Policy<'_>,
    types: &mut Option<TypeMap>,
    given: &GivenCriterion<'_>,
    pattern: &Option<Regex>,
    tests: &mut Vec<Test>,
) -> Result<(), AllocError>
    requires map { IsMapIfMade policy.now types.old }
    requires pattern { HasPatternWord (shown given.now) pattern.now }
    ensures map { IsMapIfMade policy.now types.new }
    ensures test { OnOk result (Gains policy.now (shown given.now) tests.old.items tests.new.items) }
{
    tests.push(test_of(alloc, policy, types, given, pattern)?)?;
    Ok(())
}

// The pattern of a word, if it is one. A word that is refused, and a pattern that is not built, are errors.
fn ask<P: Patterns>(
    alloc: Global,
    symbols: &Symbols<'_>,
    kinds: &[bool; 12],
    given: &GivenCriterion<'_>,
    patterns: &mut P,
) -> Result<Option<Regex>, QueryError>
    ensures { Asks symbols.now kinds.now (shown given.now) (P.state patterns.old).asked (P.state patterns.new).asked (P.state patterns.old).refusals (P.state patterns.new).refusals result }
{
    let word = given.criterion.word;
    match refusal_of(alloc, symbols, kinds, given)? {
        Some(Refusal::NotThere) => return Err(QueryError::UnknownName(word)),
        Some(Refusal::NoNumber) => return Err(QueryError::BadNumber(word)),
        None => {}
    }
    if is_pattern_word(given) {
        Ok(Some(build(alloc, given, patterns)?))
    } else {
        Ok(None)
    }
}

// The pattern that a word is.
fn build<P: Patterns>(
    alloc: Global,
    given: &GivenCriterion<'_>,
    patterns: &mut P,
) -> Result<Regex, QueryError>
    ensures { BuildsWord (shown given.now) (P.state patterns.old).asked (P.state patterns.new).asked (P.state patterns.old).refusals (P.state patterns.new).refusals result }
{
    let word = given.criterion.word;
    match patterns.build(alloc, given.criterion.text.as_str()) {
        Ok(pattern) => Ok(pattern),
        Err(PatternError::Syntax) => Err(QueryError::BadPattern(word, PatternKind::Syntax)),
        Err(PatternError::Refused) => Err(QueryError::BadPattern(word, PatternKind::Refused)),
        Err(PatternError::Memory) => Err(QueryError::Memory),
    }
}
