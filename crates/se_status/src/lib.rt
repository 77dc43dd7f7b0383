//! How a run of a tool ends: the status, its number as the program's exit code, and its message; and the answer that it concludes with.
//!
//! ```
//! let status = status_written(write_all(out, text).map_err(WriteEnd::from));
//! report(&status, err)?;
//! ```
#![tactic(auto)]

mod least_word;
mod message;
mod status;
mod written;

pub use check_list::{ListCause, ListFault};
pub use least_word::{least, least_is_least};
pub use message::report;
pub use perm_map::{MapCause, MapFault};
pub use pol_unheld::Unheld;
pub use status::Status;
pub use written::status_written;
