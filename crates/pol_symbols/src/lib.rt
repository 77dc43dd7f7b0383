//! The symbol tables of a policy: users, who stand on the records of others, and the eight tables as one.
//!
//! ```text
//! let symbols = read_symbols(alloc, &mut cursor, version)?;
//! if let Some(class) = symbols.by_name(TableKind::Classes, b"file") {
//!     let bits = symbols.perms_of(class);           // bit v - 1 stands for the value v
//!     let first = symbols.perm_name(class, 1);      // its own, or its common's
//! }
//! for i in 0..symbols.len(TableKind::Users) {
//!     print(symbols.user_view(i).name());
//! }
//! ```
#![tactic(auto)]

mod laws;
mod symbol_views;
mod symbols;
mod user_kind;
mod user_rec;
mod user_view;
mod user_write;

pub use laws::users_have_laws;
pub use pol_cursor::write_record as write_user;
pub use symbols::{OtherTables, RuleTables, Symbols, read_symbols};
pub use user_kind::User;
pub use user_rec::{UserRec, UserRecList};
pub use user_view::{UserView, read_user};
