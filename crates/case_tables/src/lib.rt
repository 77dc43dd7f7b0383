//! Cases of the tools: how tables say them, and how two answers differ.
#![tactic(auto)]

mod answer;
mod case;
mod cause;
mod edit;
mod sweep;
mod table;
mod text;
mod value;

pub use answer::{Answer, differences};
pub use case::{Case, Orders, Outside, Source};
pub use cause::{Cause, TableError};
pub use edit::{Edit, EditError, edited};
pub use sweep::Sweep;
pub use table::cases_of;
pub use text::escaped;
