//! Rules under conditions: the conditional nodes, and the list of them, records of the policy format.
//!
//! ```text
//! let nodes = read_conditionals(alloc, &mut cursor, version)?;
//! let node = nodes.view(0);
//! for rule in node.true_rules() {
//!     print(rule.source(), rule.target(), rule.class());
//! }
//! ```
#![tactic(auto)]

mod conditionals;
mod condnode_rec;
mod condnode_view;
mod condnode_write;
mod laws;
mod place_groups;

pub use conditionals::{CondNode, Conditionals, read_conditionals};
pub use condnode_rec::{CondNodeRec, CondNodeRecList};
pub use condnode_view::{CondNodeView, read_condnode};
pub use laws::{conditional_nodes_have_laws, conditionals_have_laws};
pub use pol_cursor::write_record as write_condnode;
