//! The entries of the nine tables: their views, and the kinds that the tables' lists are made of.

use crate::address_rec::AddressRec;
use crate::entry::{EntryKind, EntryView};
use crate::fsuse_rec::FsUseRec;
use crate::ibendport_rec::IbEndPortRec;
use crate::ibpkey_rec::IbPkeyRec;
use crate::named_rec::NamedRec;
use crate::port_rec::PortRec;
use crate::sid_rec::SidRec;
use pol_fields::codes::{
    OCON_FS, OCON_FSUSE, OCON_IBENDPORT, OCON_IBPKEY, OCON_ISID, OCON_NETIF, OCON_NODE, OCON_NODE6,
    OCON_PORT,
};

// Two tables have the same form of entries: file systems and interfaces, and the addresses of both widths.
pub type FsRec = NamedRec;

pub type NetifRec = NamedRec;

pub type NodeRec = AddressRec<4>;

pub type Node6Rec = AddressRec<16>;

/// The contexts of a file system or a network interface in the buffer, from one of their two tables.
pub type NamedView<'a> = EntryView<'a, NamedRec>;

/// The context of addresses of that many bytes in the buffer, from one of their two tables.
pub type AddressView<'a, const WIDTH: usize> = EntryView<'a, AddressRec<WIDTH>>;

// The entries in the buffer.
pub type SidView<'a> = EntryView<'a, SidRec>;

pub type FsView<'a> = NamedView<'a>;

pub type PortView<'a> = EntryView<'a, PortRec>;

pub type NetifView<'a> = NamedView<'a>;

pub type NodeView<'a> = AddressView<'a, 4>;

pub type FsUseView<'a> = EntryView<'a, FsUseRec>;

pub type Node6View<'a> = AddressView<'a, 16>;

pub type IbPkeyView<'a> = EntryView<'a, IbPkeyRec>;

pub type IbEndPortView<'a> = EntryView<'a, IbEndPortRec>;

// The kinds, each with libsepol's number of its table.
pub type Sid = EntryKind<SidRec, OCON_ISID>;

pub type Fs = EntryKind<FsRec, OCON_FS>;

pub type Port = EntryKind<PortRec, OCON_PORT>;

pub type Netif = EntryKind<NetifRec, OCON_NETIF>;

pub type Node = EntryKind<NodeRec, OCON_NODE>;

pub type FsUse = EntryKind<FsUseRec, OCON_FSUSE>;

pub type Node6 = EntryKind<Node6Rec, OCON_NODE6>;

pub type IbPkey = EntryKind<IbPkeyRec, OCON_IBPKEY>;

pub type IbEndPort = EntryKind<IbEndPortRec, OCON_IBENDPORT>;
