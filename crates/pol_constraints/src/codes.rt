//! The codes of constraints, by libsepol's names.

// ---- kinds of items

/// Not, before one operand.
pub const CEXPR_NOT: u32 = 1;

/// And, between two operands.
pub const CEXPR_AND: u32 = 2;

/// Or, between two operands.
pub const CEXPR_OR: u32 = 3;

/// An item that compares two sides.
pub const CEXPR_ATTR: u32 = 4;

/// An item that compares a side with names.
pub const CEXPR_NAMES: u32 = 5;

// ---- what is compared

/// The users of source and target, or among names the user of the source.
pub const CEXPR_USER: u32 = 1;

/// The roles, in the same way.
pub const CEXPR_ROLE: u32 = 2;

/// The types, in the same way.
pub const CEXPR_TYPE: u32 = 4;

/// Added to a user, role or type: that of the target.
pub const CEXPR_TARGET: u32 = 8;

/// Added to a user, role or type: that of the third context, which is the one that changes the other two.
pub const CEXPR_XTARGET: u32 = 16;

/// The low level of the source with the low level of the target.
pub const CEXPR_L1L2: u32 = 32;

/// The low level of the source with the high level of the target.
pub const CEXPR_L1H2: u32 = 64;

/// The high level of the source with the low level of the target.
pub const CEXPR_H1L2: u32 = 128;

/// The high level of the source with the high level of the target.
pub const CEXPR_H1H2: u32 = 256;

/// The low level of the source with its high level.
pub const CEXPR_L1H1: u32 = 512;

/// The low level of the target with its high level.
pub const CEXPR_L2H2: u32 = 1024;

// The user, role and type of the target, and those of the third context.
pub(crate) const TARGET_USER: u32 = CEXPR_USER + CEXPR_TARGET;

pub(crate) const TARGET_ROLE: u32 = CEXPR_ROLE + CEXPR_TARGET;

pub(crate) const TARGET_TYPE: u32 = CEXPR_TYPE + CEXPR_TARGET;

pub(crate) const XTARGET_USER: u32 = CEXPR_USER + CEXPR_XTARGET;

pub(crate) const XTARGET_ROLE: u32 = CEXPR_ROLE + CEXPR_XTARGET;

pub(crate) const XTARGET_TYPE: u32 = CEXPR_TYPE + CEXPR_XTARGET;

// ---- how it is compared

/// Equal.
pub const CEXPR_EQ: u32 = 1;

/// Not equal.
pub const CEXPR_NEQ: u32 = 2;

/// The left side dominates the right one.
pub const CEXPR_DOM: u32 = 3;

/// The left side is dominated by the right one.
pub const CEXPR_DOMBY: u32 = 4;

/// Neither side dominates the other.
pub const CEXPR_INCOMP: u32 = 5;

/// The most values that stand at an item of a constraint.
pub const CEXPR_MAXDEPTH: u32 = 5;
