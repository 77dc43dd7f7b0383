//! The conditions on the fields of constraints: each gives the cause that refuses a value.

ghost use Rattle.std.specs.Prelude.{◌≡◌, ◌≤◌, IfNone};
ghost use Rattle.pol_cursor.specs.Parts.{unless};
ghost use Rattle.pol_expr.specs.Postfix.{values_after};
ghost use Rattle.pol_constraints.specs.declared.codes.TheConstants.{CEXPR_MAXDEPTH};
ghost use Rattle.pol_constraints.specs.ConstraintRecord.{kind_operands, kind_test, attr_test, op_test, is_pair, is_side};

use crate::codes::{
    CEXPR_AND, CEXPR_ATTR, CEXPR_EQ, CEXPR_H1H2, CEXPR_H1L2, CEXPR_INCOMP, CEXPR_L1H1, CEXPR_L1H2,
    CEXPR_L1L2, CEXPR_L2H2, CEXPR_MAXDEPTH, CEXPR_NAMES, CEXPR_NEQ, CEXPR_NOT, CEXPR_OR,
    CEXPR_ROLE, CEXPR_TYPE, CEXPR_USER, TARGET_ROLE, TARGET_TYPE, TARGET_USER, XTARGET_ROLE,
    XTARGET_TYPE, XTARGET_USER,
};
use pol_expr::operands_cause;
use pol_fields::Cause;

pub fn kind_operands(kind: u32) -> u32
    ensures exact { result ≡ kind_operands kind }
    ensures few { result ≤ 2 }
{
    match kind {
        CEXPR_NOT => 1,
        CEXPR_AND | CEXPR_OR => 2,
        _ => 0,
    }
}

pub fn kind_cause(left: u32, values: u32, kind: u32) -> Option<Cause>
    requires { values ≤ CEXPR_MAXDEPTH }
    ensures exact { result ≡ kind_test left values kind }
    ensures fits { IfNone result ((kind_operands kind ≤ values) × (values_after values (kind_operands kind) ≤ CEXPR_MAXDEPTH)) }
{
    if kind >= CEXPR_NOT && kind <= CEXPR_NAMES {
        operands_cause(CEXPR_MAXDEPTH, left, values, kind_operands(kind))
    } else {
        Some(Cause::BadKind)
    }
}

pub fn attr_cause(xtarget: bool, kind: u32, attr: u32) -> Option<Cause>
    ensures { result ≡ attr_test xtarget kind attr }
{
    match kind {
        CEXPR_ATTR => unless(is_pair(attr), Cause::BadAttr),
        CEXPR_NAMES => unless(is_side(xtarget, attr), Cause::BadAttr),
        _ => None,
    }
}

pub fn op_cause(kind: u32, op: u32) -> Option<Cause>
    ensures { result ≡ op_test kind op }
{
    match kind {
        CEXPR_ATTR => unless(op >= CEXPR_EQ && op <= CEXPR_INCOMP, Cause::BadOp),
        CEXPR_NAMES => unless(op >= CEXPR_EQ && op <= CEXPR_NEQ, Cause::BadOp),
        _ => None,
    }
}

// Whether a comparison has these two sides.
fn is_pair(attr: u32) -> bool
    ensures { result ≡ is_pair attr }
{
    match attr {
        CEXPR_USER | CEXPR_ROLE | CEXPR_TYPE => true,
        CEXPR_L1L2 | CEXPR_L1H2 | CEXPR_H1L2 | CEXPR_H1H2 | CEXPR_L1H1 | CEXPR_L2H2 => true,
        _ => false,
    }
}

// Whether names are looked for on this side.
fn is_side(xtarget: bool, attr: u32) -> bool
    ensures { result ≡ is_side xtarget attr }
{
    match attr {
        CEXPR_USER | CEXPR_ROLE | CEXPR_TYPE => true,
        TARGET_USER | TARGET_ROLE | TARGET_TYPE => true,
        XTARGET_USER | XTARGET_ROLE | XTARGET_TYPE => xtarget,
        _ => false,
    }
}

fn unless(holds: bool, cause: Cause) -> Option<Cause>
    ensures { result ≡ unless holds cause }
{
    if holds { None } else { Some(cause) }
}
