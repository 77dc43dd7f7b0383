//! The entries of contexts of objects, which are compared between two policies.
//!
//! ```text
//! let ports = |policy: &Policy| ContextEntries::new(&policy.contexts().port, policy.symbols());
//! let differences = Differences::new(alloc, ports(&first), ports(&second))?;
//! ```
#![tactic(auto)]

mod context_entries;
mod fsuse_entry;
mod ibendport_entry;
mod ibpkey_entry;
mod key_elements;
mod netif_entry;
mod node6_entry;
mod node_entries;
mod node_entry;
mod port_entry;
mod sid_entries;

pub use context_entries::{ComparedEntry, ContextEntries};
pub use node_entries::NodeEntries;
pub use sid_entries::SidEntries;
