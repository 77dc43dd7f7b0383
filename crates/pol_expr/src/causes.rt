//! The conditions on the fields of expressions: each gives the cause that refuses a value.

ghost use Rattle.std.specs.Prelude.{◌≡◌, ◌≤◌, ◌<◌, ◌+◌, IfNone};
ghost use Rattle.pol_expr.specs.Postfix.{operands_test, item_count_test, values_after};
ghost use Rattle.pol_expr.specs.declared.codes.TheConstants.{COND_EXPR_MAXDEPTH};
ghost use Rattle.pol_expr.specs.ConditionRecord.{kind_operands, kind_test};

use crate::codes::{COND_BOOL, COND_EXPR_MAXDEPTH, COND_NEQ, COND_NOT};
use pol_fields::Cause;

/// `NotOneValue` where an expression has no item.
pub fn item_count_cause(count: u32) -> Option<Cause>
    ensures { result ≡ item_count_test count }
{
    if count == 0 {
        Some(Cause::NotOneValue)
    } else {
        None
    }
}

pub fn kind_operands(kind: u32) -> u32
    ensures exact { result ≡ kind_operands kind }
    ensures few { result ≤ 2 }
{
    match kind {
        COND_BOOL => 0,
        COND_NOT => 1,
        _ => 2,
    }
}

pub fn kind_cause(left: u32, values: u32, kind: u32) -> Option<Cause>
    requires { values ≤ COND_EXPR_MAXDEPTH }
    ensures exact { result ≡ kind_test left values kind }
    ensures fits { IfNone result ((kind_operands kind ≤ values) × (values_after values (kind_operands kind) ≤ COND_EXPR_MAXDEPTH)) }
{
    if kind >= COND_BOOL && kind <= COND_NEQ {
        operands_cause(COND_EXPR_MAXDEPTH, left, values, kind_operands(kind))
    } else {
        Some(Cause::BadKind)
    }
}

/// Whether the item of an expression has its operands, by the values before it and the items left after it: `NotOneValue` where
/// it has not, or where the last item does not leave one value, and `TooDeep` where a leaf makes more values than the limit.
pub fn operands_cause(limit: u32, left: u32, values: u32, operands: u32) -> Option<Cause>
    requires { values ≤ limit }
    ensures exact { result ≡ operands_test limit left values operands }
    ensures fits { IfNone result ((operands ≤ values) × (values_after values operands ≤ limit)) }
{
    if values < operands {
        Some(Cause::NotOneValue)
    } else if operands == 0 && values >= limit {
        Some(Cause::TooDeep)
    } else if left == 0 && values != operands {
        Some(Cause::NotOneValue)
    } else {
        None
    }
}
