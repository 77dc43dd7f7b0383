//! Access vectors, which are most rules of a policy, and their table.
//!
//! ```
//! let table = read_table(alloc, &mut cursor, version)?;
//! let first = table.view(0);
//! let permissions = first.mask(); // of an allow rule: bit v - 1 stands for the permission of value v
//! ```
#![tactic(auto)]

mod av_key;
mod av_keys;
mod av_kind;
mod av_rec;
mod av_table;
mod av_view;
mod av_write;
mod causes;
pub mod codes;
mod even_rules;
mod key_order;
mod laws;
mod word_marks;
mod xnumbers;
mod xperms;

pub use av_key::AvKey;
pub use av_keys::AvKeys;
pub use av_kind::{Av, AvContext};
pub use av_rec::{AvPart, AvRec, AvRecList};
pub use av_table::{AvTable, read_table};
pub use av_view::{AvView, read_av};
pub use laws::{access_vectors_have_laws, tables_have_laws};
pub use pol_cursor::write_record as write_av;
pub use xnumbers::XNumbers;
pub use xperms::{XPerms, shown_mask};
