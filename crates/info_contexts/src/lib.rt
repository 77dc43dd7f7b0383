//! The listings of security contexts, line by line.
//!
//! ```text
//! let mut lines = port_lines(&policy);
//! for _ in 0..lines.count() {
//!     lines.push_line(&mut out)?;
//! }
//! ```
#![tactic(auto)]

mod contexts;
mod entry_names;
mod fsuse_line;
mod genfs_entry;
mod genfs_line;
mod ibendport_line;
mod ibpkey_line;
mod listings;
mod netif_line;
mod node6_line;
mod node_line;
mod port_line;
mod sid_line;
mod table_lines;

pub use fsuse_line::FsUseLines;
pub use genfs_entry::{GenfsEntry, genfs_entries};
pub use genfs_line::GenfsLines;
pub use ibendport_line::IbEndPortLines;
pub use ibpkey_line::IbPkeyLines;
pub use listings::{
    fsuse_lines, genfs_lines, ibendport_lines, ibpkey_lines, netif_lines, node_lines, port_lines,
    sid_lines,
};
pub use netif_line::NetifLines;
pub use node_line::NodeLines;
pub use node6_line::Node6Lines;
pub use port_line::PortLines;
pub use sid_line::SidLines;
pub use table_lines::{LinedEntry, NamedEntry, TableLines};
