//! The tables that hold contexts.

ghost use Rattle.std.specs.Prelude.{◌≡◌};
ghost use Rattle.pol_cursor.specs.Outcome.{Yields};
ghost use Rattle.pol_cursor.specs.Parts.{counted, records_at};
ghost use Rattle.pol_cursor.specs.References.{placed};
ghost use Rattle.pol_contexts.specs.ContextTables.{table_if, has_infiniband, contexts_at};

use crate::fsuse_rec::FsUseRec;
use crate::ibendport_rec::IbEndPortRec;
use crate::ibpkey_rec::IbPkeyRec;
use crate::kinds::{
    Fs, FsRec, FsUse, IbEndPort, IbPkey, Netif, NetifRec, Node, Node6, Node6Rec, NodeRec, Port, Sid,
};
use crate::port_rec::PortRec;
use crate::sid_rec::SidRec;
use pol_cursor::{Cursor, OwnedList, ReadAlone, ReadError, Records, read_counted};
use pol_fields::Field;
use pol_fields::codes::POLICYDB_VERSION_INFINIBAND;
use pol_fields::fields::{
    FS_COUNT, FSUSE_COUNT, IBENDPORT_COUNT, IBPKEY_COUNT, NETIF_COUNT, NODE_COUNT, NODE6_COUNT,
    PORT_COUNT, SID_COUNT,
};
use std::alloc::Global;

// The lists of views, in file order.
pub type SidList<'a> = Records<'a, Sid>;

pub type FsList<'a> = Records<'a, Fs>;

pub type PortList<'a> = Records<'a, Port>;

pub type NetifList<'a> = Records<'a, Netif>;

pub type NodeList<'a> = Records<'a, Node>;

pub type FsUseList<'a> = Records<'a, FsUse>;

pub type Node6List<'a> = Records<'a, Node6>;

pub type IbPkeyList<'a> = Records<'a, IbPkey>;

pub type IbEndPortList<'a> = Records<'a, IbEndPort>;

// The lists of the owned entries of each table.
pub type SidRecList = OwnedList<SidRec>;

pub type FsRecList = OwnedList<FsRec>;

pub type PortRecList = OwnedList<PortRec>;

pub type NetifRecList = OwnedList<NetifRec>;

pub type NodeRecList = OwnedList<NodeRec>;

pub type FsUseRecList = OwnedList<FsUseRec>;

pub type Node6RecList = OwnedList<Node6Rec>;

pub type IbPkeyRecList = OwnedList<IbPkeyRec>;

pub type IbEndPortRecList = OwnedList<IbEndPortRec>;

/// The tables of a policy that hold contexts, each in file order.
pub struct Contexts<'a> {
    pub sid: Records<'a, Sid>,
    pub fs: Records<'a, Fs>,
    pub port: Records<'a, Port>,
    pub netif: Records<'a, Netif>,
    pub node: Records<'a, Node>,
    pub fsuse: Records<'a, FsUse>,
    pub node6: Records<'a, Node6>,
    /// It is empty below version 31.
    pub ibpkey: Records<'a, IbPkey>,
    /// It is empty below version 31.
    pub ibendport: Records<'a, IbEndPort>,
}

// Its parts go in one call, wherever it is dropped.
impl Drop for Contexts<'_> {
    fn drop(self) {
        let Contexts {
            sid,
            fs,
            port,
            netif,
            node,
            fsuse,
            node6,
            ibpkey,
            ibendport,
        } = self;
    }
}

/// Whether a policy of that version has the tables of InfiniBand.
pub fn has_infiniband(version: u32) -> bool
    ensures { result ≡ has_infiniband version }
{
    version >= POLICYDB_VERSION_INFINIBAND
}

/// Reads the tables in the order of the file. Nothing is reserved by the numbers that the policy claims.
#[tactic(auto, unfolding(crate::specs::ContextTables::contexts_at))]
pub fn read_contexts<'a>(
    alloc: Global,
    c: &mut Cursor<'a>,
    version: u32,
) -> Result<Contexts<'a>, ReadError>
    ensures { Yields (λ contexts. contexts) result (contexts_at version) c.old c.new }
{
    let infiniband = has_infiniband(version);
    Ok(Contexts {
        sid: read_counted(alloc, c, SID_COUNT)?,
        fs: read_counted(alloc, c, FS_COUNT)?,
        port: read_counted(alloc, c, PORT_COUNT)?,
        netif: read_counted(alloc, c, NETIF_COUNT)?,
        node: read_counted(alloc, c, NODE_COUNT)?,
        fsuse: read_counted(alloc, c, FSUSE_COUNT)?,
        node6: read_counted(alloc, c, NODE6_COUNT)?,
        ibpkey: read_table_if(alloc, c, infiniband, IBPKEY_COUNT)?,
        ibendport: read_table_if(alloc, c, infiniband, IBENDPORT_COUNT)?,
    })
}

// Reads a table, whose count has that field, where there is one.
#[tactic(auto, unfolding(crate::specs::ContextTables::table_if))]
fn read_table_if<'a, K: ReadAlone + Drop>(
    alloc: Global,
    c: &mut Cursor<'a>,
    there: bool,
    count: Field,
) -> Result<Records<'a, K>, ReadError>
    ensures { Yields (λ entries. entries) result (table_if there (counted count (records_at (placed K.reads)))) c.old c.new }
{
    if there {
        read_counted(alloc, c, count)
    } else {
        Ok(Records::empty(alloc, c.bytes()))
    }
}
