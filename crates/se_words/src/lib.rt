//! The words of a command line, and how a tool's table of options cuts them into groups: options with their values, and positional
//! words. A table is data: a row says the forms of an option and what it takes. The rules (values joined by `=`, `--`, optional names,
//! the last occurrence, words that do not fit) are said once, over any table.
#![tactic(auto)]

mod cut;
mod given;
mod groups;
mod misfits;
mod rows;
mod states;
mod values;
mod words;

pub use cut::groups_of;
pub use given::{first_positional, given_number, given_value, is_given, last_value, positionals};
pub use groups::{Group, Named};
pub use misfits::first_misfit;
pub use rows::{OptionRow, Takes, ValueKind, naming, switch, valued};
pub use states::{State, given_states};
pub use values::number_within;
pub use words::{Word, Words};
