//! The texts of the names and numbers of a policy, and of sets of names, as listings, searches and transitions print them. Each call
//! appends to what it is given.
//!
//! ```text
//! push_ports_text(&mut out, 80, 80)?;          // 80
//! push_protocol_name(&mut out, 6)?;            // tcp
//! push_set(&mut out, &[b"read", b"write"])?;   // { read write }
//! ```
#![tactic(auto)]

mod address_texts;
mod hexadecimal;
mod name_lists;
mod name_texts;
mod number_names;
mod number_texts;
mod set_texts;

pub use address_texts::{push_groups_text, push_ipv4_text};
pub use name_lists::insert_name;
pub use name_texts::push_name_text;
pub use number_names::{behaviour_word, push_protocol_name, push_sid_name};
pub use number_texts::{push_decimal, push_keys_text, push_ports_text};
pub use set_texts::push_set;
