//! The nine tables of a policy that hold contexts: initial SIDs, file systems, ports, interfaces, addresses, ways in which file
//! systems get their contexts, and InfiniBand.
//!
//! [`read_contexts`] reads all of them; one entry is read by the call of its table, as [`read_port_entry`], for who goes through a file
//! without keeping lists.
//!
//! ```text
//! let contexts = read_contexts(alloc, &mut cursor, version)?;
//! for i in 0..contexts.port.len() {
//!     let port = contexts.port.view(i);
//!     print(port.low(), port.high(), port.context());
//! }
//! ```
#![tactic(auto)]

mod address_entry;
mod address_rec;
mod causes;
mod entry;
mod fsuse_entry;
mod fsuse_rec;
mod ibendport_entry;
mod ibendport_rec;
mod ibpkey_entry;
mod ibpkey_rec;
mod kinds;
mod laws;
mod named_entry;
mod named_rec;
mod port_entry;
mod port_rec;
mod readers;
mod sid_entry;
mod sid_rec;
mod tables;

pub use address_rec::AddressRec;
pub use entry::{Entry, EntryKind, EntryView, Standing};
pub use fsuse_rec::FsUseRec;
pub use ibendport_rec::IbEndPortRec;
pub use ibpkey_rec::IbPkeyRec;
pub use kinds::{
    AddressView, Fs, FsRec, FsUse, FsUseView, FsView, IbEndPort, IbEndPortView, IbPkey, IbPkeyView,
    NamedView, Netif, NetifRec, NetifView, Node, Node6, Node6Rec, Node6View, NodeRec, NodeView,
    Port, PortView, Sid, SidView,
};
pub use laws::{
    behaviours_have_laws, device_ports_have_laws, file_systems_have_laws, interfaces_have_laws,
    nodes_have_laws, nodes6_have_laws, partition_keys_have_laws, ports_have_laws, sids_have_laws,
};
pub use named_rec::NamedRec;
pub use pol_cursor::{
    write_record as write_fs, write_record as write_fsuse, write_record as write_ibendport,
    write_record as write_ibpkey, write_record as write_netif, write_record as write_node,
    write_record as write_node6, write_record as write_port, write_record as write_sid,
};
pub use port_rec::PortRec;
pub use readers::{
    read_fs_entry, read_fsuse_entry, read_ibendport_entry, read_ibpkey_entry, read_netif_entry,
    read_node_entry, read_node6_entry, read_port_entry, read_sid_entry,
};
pub use sid_rec::SidRec;
pub use tables::{
    Contexts, FsList, FsRecList, FsUseList, FsUseRecList, IbEndPortList, IbEndPortRecList,
    IbPkeyList, IbPkeyRecList, NetifList, NetifRecList, Node6List, Node6RecList, NodeList,
    NodeRecList, PortList, PortRecList, SidList, SidRecList, has_infiniband, read_contexts,
};
