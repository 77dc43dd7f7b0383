//! The codes of conditions, by libsepol's names.

/// An item that is a boolean.
pub const COND_BOOL: u32 = 1;

/// Not, before one operand.
pub const COND_NOT: u32 = 2;

/// Or, between two operands.
pub const COND_OR: u32 = 3;

/// And, between two operands.
pub const COND_AND: u32 = 4;

/// Either but not both, between two operands.
pub const COND_XOR: u32 = 5;

/// Equal, between two operands.
pub const COND_EQ: u32 = 6;

/// Not equal, between two operands.
pub const COND_NEQ: u32 = 7;

/// The most values that stand at an item of a condition.
pub const COND_EXPR_MAXDEPTH: u32 = 10;
