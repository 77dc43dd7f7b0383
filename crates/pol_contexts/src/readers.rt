//! The readers of one entry, for who goes through a table without keeping its list.

ghost use Rattle.std.specs.Prelude.{◌≡◌, IfOk};
ghost use Rattle.pol_fields.specs.declared.fields.TheConstants.{FS_LEN, FS_NAME, NETIF_LEN, NETIF_NAME, NODE_ADDRESS, NODE_MASK, NODE6_ADDRESS, NODE6_MASK};
ghost use Rattle.pol_cursor.specs.Outcome.{Answers};
ghost use Rattle.pol_contexts.specs.SidRecord.{sid_at, sid_in, HasSid};
ghost use Rattle.pol_contexts.specs.NamedRecord.{named_at, named_in, HasNamed};
ghost use Rattle.pol_contexts.specs.PortRecord.{port_at, port_in, HasPort};
ghost use Rattle.pol_contexts.specs.AddressRecord.{address_at, address_in, HasAddress};
ghost use Rattle.pol_contexts.specs.FsUseRecord.{fsuse_at, fsuse_in, HasFsUse};
ghost use Rattle.pol_contexts.specs.IbPkeyRecord.{ibpkey_at, ibpkey_in, HasIbPkey};
ghost use Rattle.pol_contexts.specs.IbEndPortRecord.{ibendport_at, ibendport_in, HasIbEndPort};

use crate::entry::read_entry;
use crate::kinds::{
    Fs, FsUse, FsUseView, FsView, IbEndPort, IbEndPortView, IbPkey, IbPkeyView, Netif, NetifView,
    Node, Node6, Node6View, NodeView, Port, PortView, Sid, SidView,
};
use pol_cursor::Cursor;
use pol_fields::Fault;

/// The entry of an initial SID at the cursor, which then stands behind it. Takes no memory, and has the faults of `read_context`
/// (pol_mls); so it is with the readers of the other tables.
pub fn read_sid_entry<'a>(c: &mut Cursor<'a>) -> Result<SidView<'a>, Fault>
    ensures exact { Answers (λ entry. entry.value) result (sid_at) c.old c.new }
    ensures stands { IfOk result (λ entry. HasSid c.old.bytes c.old.place × (entry ≡ record { place = c.old.place; value = sid_in c.old.bytes c.old.place })) }
{
    read_entry::<Sid>(c)
}

/// The entry of a file system at the cursor, which then stands behind it. `BadName` where its name is empty or has a byte 0.
pub fn read_fs_entry<'a>(c: &mut Cursor<'a>) -> Result<FsView<'a>, Fault>
    ensures exact { Answers (λ entry. entry.value) result (named_at FS_LEN FS_NAME) c.old c.new }
    ensures stands { IfOk result (λ entry. HasNamed c.old.bytes c.old.place × (entry ≡ record { place = c.old.place; value = named_in c.old.bytes c.old.place })) }
{
    read_entry::<Fs>(c)
}

/// The entry of a range of ports at the cursor, which then stands behind it.
pub fn read_port_entry<'a>(c: &mut Cursor<'a>) -> Result<PortView<'a>, Fault>
    ensures exact { Answers (λ entry. entry.value) result (port_at) c.old c.new }
    ensures stands { IfOk result (λ entry. HasPort c.old.bytes c.old.place × (entry ≡ record { place = c.old.place; value = port_in c.old.bytes c.old.place })) }
{
    read_entry::<Port>(c)
}

/// The entry of a network interface at the cursor, which then stands behind it. `BadName` where its name is empty or has a byte 0.
pub fn read_netif_entry<'a>(c: &mut Cursor<'a>) -> Result<NetifView<'a>, Fault>
    ensures exact { Answers (λ entry. entry.value) result (named_at NETIF_LEN NETIF_NAME) c.old c.new }
    ensures stands { IfOk result (λ entry. HasNamed c.old.bytes c.old.place × (entry ≡ record { place = c.old.place; value = named_in c.old.bytes c.old.place })) }
{
    read_entry::<Netif>(c)
}

/// The entry of IPv4 addresses at the cursor, which then stands behind it.
pub fn read_node_entry<'a>(c: &mut Cursor<'a>) -> Result<NodeView<'a>, Fault>
    ensures exact { Answers (λ entry. entry.value) result (address_at NODE_ADDRESS NODE_MASK 4) c.old c.new }
    ensures stands { IfOk result (λ entry. HasAddress 4 c.old.bytes c.old.place × (entry ≡ record { place = c.old.place; value = address_in 4 c.old.bytes c.old.place })) }
{
    read_entry::<Node>(c)
}

/// The entry of the behaviour of a file system at the cursor, which then stands behind it. `BadBehaviour` where the behaviour is
/// none of the three, and `BadName` where its name is empty or has a byte 0.
pub fn read_fsuse_entry<'a>(c: &mut Cursor<'a>) -> Result<FsUseView<'a>, Fault>
    ensures exact { Answers (λ entry. entry.value) result (fsuse_at) c.old c.new }
    ensures stands { IfOk result (λ entry. HasFsUse c.old.bytes c.old.place × (entry ≡ record { place = c.old.place; value = fsuse_in c.old.bytes c.old.place })) }
{
    read_entry::<FsUse>(c)
}

/// The entry of IPv6 addresses at the cursor, which then stands behind it.
pub fn read_node6_entry<'a>(c: &mut Cursor<'a>) -> Result<Node6View<'a>, Fault>
    ensures exact { Answers (λ entry. entry.value) result (address_at NODE6_ADDRESS NODE6_MASK 16) c.old c.new }
    ensures stands { IfOk result (λ entry. HasAddress 16 c.old.bytes c.old.place × (entry ≡ record { place = c.old.place; value = address_in 16 c.old.bytes c.old.place })) }
{
    read_entry::<Node6>(c)
}

/// The entry of partition keys at the cursor, which then stands behind it.
pub fn read_ibpkey_entry<'a>(c: &mut Cursor<'a>) -> Result<IbPkeyView<'a>, Fault>
    ensures exact { Answers (λ entry. entry.value) result (ibpkey_at) c.old c.new }
    ensures stands { IfOk result (λ entry. HasIbPkey c.old.bytes c.old.place × (entry ≡ record { place = c.old.place; value = ibpkey_in c.old.bytes c.old.place })) }
{
    read_entry::<IbPkey>(c)
}

/// The entry of the port of a device at the cursor, which then stands behind it. `BadName` where its name is empty or has a byte 0.
pub fn read_ibendport_entry<'a>(c: &mut Cursor<'a>) -> Result<IbEndPortView<'a>, Fault>
    ensures exact { Answers (λ entry. entry.value) result (ibendport_at) c.old c.new }
    ensures stands { IfOk result (λ entry. HasIbEndPort c.old.bytes c.old.place × (entry ≡ record { place = c.old.place; value = ibendport_in c.old.bytes c.old.place })) }
{
    read_entry::<IbEndPort>(c)
}
