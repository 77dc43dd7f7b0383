//! Policy files: the header, the parts of a policy in the order of the file, their references, and which files are accepted.
//!
//! ```text
//! match read_file(alloc, bytes) {
//!     Ok(parts) => print(parts.front.header.version(), parts.symbols.len(TableKind::Types)),
//!     Err(ReadError::Fault(fault)) => print(fault.place, fault.field.word(), fault.cause.word()),
//!     Err(ReadError::Memory) => {}
//! }
//! ```
#![tactic(auto)]

mod dangling;
mod file;
mod header_causes;
mod header_laws;
mod header_rec;
mod header_view;
mod header_write;
mod parts;
mod reading;
mod type_rows;

pub use file::read_file;
pub use header_laws::headers_have_laws;
pub use header_rec::HeaderRec;
pub use header_view::{HeaderView, read_header};
pub use header_write::write_header;
pub use parts::{Front, LabelLists, Parts, RuleLists};
pub use type_rows::{TypeRow, TypeRows, row_of};
