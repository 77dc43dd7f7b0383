//! What the eight symbol tables share: claims of names and values ([`Taken`]), the conditions of symbol records, and look-ups by name
//! and value ([`TableNames`]).
//!
//! A kind of symbol ([`SymbolKind`]) says how a record is read under the claims of the records before it; [`read_whole_table`] reads
//! any table so.
//!
//! ```text
//! let roles: SymbolTable<'_, Role> = read_whole_table(alloc, &mut cursor)?;
//! if let Some(i) = roles.index_by_name(b"object_r") {
//!     print(roles.view(i).value());
//! }
//! ```
#![tactic(auto)]

mod causes;
mod laws;
mod name_order;
mod name_prefix;
mod symbol;
mod symbol_fields;
mod symbol_laws;
mod symbol_names;
mod symbol_table;
mod table_head;
mod table_names;
mod taken;
mod taken_names;
mod taken_values;
mod value_index;

pub use causes::{
    is_name, length_cause, name_cause, new_value_cause, primary_value_cause, value_cause,
};
pub use laws::{ranks_have_law, tables_have_laws};
pub use symbol::{Symbol, SymbolKind};
pub use symbol_fields::{read_symbol_length, read_symbol_name};
pub use symbol_table::{SymbolTable, check_table, read_symbol_table, read_whole_table};
pub use table_head::{TableHead, read_table_head};
pub use table_names::TableNames;
pub use taken::{TableContext, Taken};
