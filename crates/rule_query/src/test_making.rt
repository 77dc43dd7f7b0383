// The test of a criterion.
ghost use Rattle.std.specs.Prelude.{IfOk};
ghost use Rattle.rule_query.specs.GivenCriteria.{shown};
ghost use Rattle.rule_query.specs.Inner.LookedUp.{HasPatternWord, IsMapIfMade};
ghost use Rattle.rule_query.specs.Inner.Resolved.{IsTestOf};

use crate::ends::{defaults, ends_of};
use crate::given::{Aspect, GivenCriterion};
use crate::listed::{listed, nodes};
use crate::tests::Test;
use pol_expand::TypeMap;
use pol_fields::TableKind;
use pol_read::Policy;
use regex::Regex;
use rule_tests::{NumberTest, PermissionTest};
use std::alloc::{AllocError, Global};

/// What meets a criterion, whose pattern was built if it is one.
pub fn test_of(
    alloc: Global,
    policy: &Policy<'_>,
    types: &mut Option<TypeMap>,
    given: &GivenCriterion<'_>,
    pattern: &Option<Regex>,
) -> Result<Test, AllocError>
    requires map { IsMapIfMade policy.now types.old }
    requires pattern { HasPatternWord (shown given.now) pattern.now }
    ensures map { IsMapIfMade policy.now types.new }
    ensures test { IfOk result (IsTestOf policy.now (shown given.now)) }
{
    let symbols = policy.symbols();
    let criterion = given.criterion;
    match given.aspect {
        Aspect::Source => Ok(Test::Source(ends_of(alloc, policy, types, criterion, pattern)?)),
        Aspect::Target => Ok(Test::Target(ends_of(alloc, policy, types, criterion, pattern)?)),
        Aspect::Class => Ok(Test::Class(listed(
            alloc,
            symbols,
            TableKind::Classes,
            criterion,
            pattern,
        )?)),
        Aspect::Permissions => Ok(Test::Permissions(PermissionTest::of(
            alloc, symbols, criterion,
        )?)),
        Aspect::Numbers => Ok(Test::Numbers(NumberTest::of(alloc, criterion)?)),
        Aspect::Default => Ok(Test::Default(defaults(alloc, symbols, criterion, pattern)?)),
        Aspect::Booleans => Ok(Test::Condition(nodes(alloc, policy, criterion, pattern)?)),
    }
}
