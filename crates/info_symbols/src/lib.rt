//! The listings of the records of symbol tables, line by line: by names, or expanded, as statements of the policy language.
//!
//! ```text
//! let mut lines = symbol_lines(alloc, policy.symbols(), TableKind::Roles, true, None)?;
//! for _ in 0..lines.count() {
//!     lines.push_line(&mut out)?;
//! }
//! ```
#![tactic(auto)]

mod aliases;
mod attribute_statement;
mod class_texts;
mod mls_texts;
mod permission_sets;
mod ranked_types;
mod role_text;
mod table_lines;
mod type_sets;
mod type_texts;
mod user_text;

pub use aliases::{Aliases, push_aliases};
pub use attribute_statement::{
    AttributeLines, attribute_statements, attribute_statements_named, push_attribute_statement,
};
pub use permission_sets::permission_names;
pub use ranked_types::names_of_set;
pub use table_lines::{SymbolLines, state_word, symbol_lines};
pub use type_sets::{TypeLines, TypeSet, set_lines, set_number_named, set_numbers};
pub use type_texts::attribute_names;
