//! What the expressions of a policy share, and the conditions of conditional rules.
//!
//! An expression is a list of items, each operator after its operands. [`Operand`] makes its text, as a reader of such items meets them:
//!
//! ```
//! let left = Operand::leaf(alloc, b"allow_execmem")?;
//! let right = Operand::leaf(alloc, b"secure_mode")?.negated(b"!")?;
//! let text = left.joined(b" && ", right)?.into_text(); // allow_execmem && !secure_mode
//! ```
#![tactic(auto)]

mod causes;
pub mod codes;
mod condition_booleans;
mod condition_infix;
mod condition_reading;
mod condition_rec;
mod condition_value;
mod condition_view;
mod condition_write;
mod laws;
mod operand;
mod symbol;

pub use causes::{item_count_cause, operands_cause};
pub use condition_rec::{ConditionItem, ConditionRec};
pub use condition_view::{ConditionView, read_condition};
pub use laws::{conditions_have_laws, conditions_have_one_tree};
pub use operand::Operand;
pub use pol_cursor::write_record as write_condition;
pub use symbol::{Operator, Symbol};
