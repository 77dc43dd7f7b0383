// The two laws of records and of their lists, each claimed by a function that does nothing.
ghost use Rattle.pol_fields.specs.declared.fields.TheConstants.{SID_COUNT, FS_COUNT, FS_LEN, FS_NAME, PORT_COUNT, NETIF_COUNT, NETIF_LEN, NETIF_NAME, NODE_COUNT, NODE_ADDRESS, NODE_MASK, FSUSE_COUNT, NODE6_COUNT, NODE6_ADDRESS, NODE6_MASK, IBPKEY_COUNT, IBENDPORT_COUNT};
ghost use Rattle.pol_cursor.specs.Laws.{IsReadAgain, IsReadFromSpelling};
ghost use Rattle.pol_cursor.specs.Parts.{counted, records_at, spell_counted, CountedFits};
ghost use Rattle.pol_contexts.specs.SidRecord.{sid_at, spell_sid, SidFits};
ghost use Rattle.pol_contexts.specs.NamedRecord.{named_at, spell_named, NamedFits};
ghost use Rattle.pol_contexts.specs.PortRecord.{port_at, spell_port, PortFits};
ghost use Rattle.pol_contexts.specs.AddressRecord.{address_at, spell_address, AddressFits};
ghost use Rattle.pol_contexts.specs.FsUseRecord.{fsuse_at, spell_fsuse, FsUseFits};
ghost use Rattle.pol_contexts.specs.IbPkeyRecord.{ibpkey_at, spell_ibpkey, IbPkeyFits};
ghost use Rattle.pol_contexts.specs.IbEndPortRecord.{ibendport_at, spell_ibendport, IbEndPortFits};

/// The entry of an initial SID that is spelled and accepted is read again, and one that was read is spelled by the bytes
/// that it was read from. So it is with the list of such entries.
pub fn sids_have_laws()
    ensures again { IsReadAgain sid_at spell_sid SidFits }
    ensures spelled { IsReadFromSpelling sid_at spell_sid SidFits }
    ensures list_again { IsReadAgain (counted SID_COUNT (records_at sid_at)) (spell_counted spell_sid) (CountedFits SidFits) }
    ensures list_spelled { IsReadFromSpelling (counted SID_COUNT (records_at sid_at)) (spell_counted spell_sid) (CountedFits SidFits) }
{}

/// The entry of a file system that is spelled and accepted is read again, and one that was read is spelled by the bytes that it
/// was read from, and so is the list of such entries.
pub fn file_systems_have_laws()
    ensures again { IsReadAgain (named_at FS_LEN FS_NAME) spell_named NamedFits }
    ensures spelled { IsReadFromSpelling (named_at FS_LEN FS_NAME) spell_named NamedFits }
    ensures list_again { IsReadAgain (counted FS_COUNT (records_at (named_at FS_LEN FS_NAME))) (spell_counted spell_named) (CountedFits NamedFits) }
    ensures list_spelled { IsReadFromSpelling (counted FS_COUNT (records_at (named_at FS_LEN FS_NAME))) (spell_counted spell_named) (CountedFits NamedFits) }
{}

/// The entry of a range of ports that is spelled and accepted is read again, and one that was read is spelled by the bytes that
/// it was read from, and so is the list of such entries.
pub fn ports_have_laws()
    ensures again { IsReadAgain port_at spell_port PortFits }
    ensures spelled { IsReadFromSpelling port_at spell_port PortFits }
    ensures list_again { IsReadAgain (counted PORT_COUNT (records_at port_at)) (spell_counted spell_port) (CountedFits PortFits) }
    ensures list_spelled { IsReadFromSpelling (counted PORT_COUNT (records_at port_at)) (spell_counted spell_port) (CountedFits PortFits) }
{}

/// The entry of a network interface that is spelled and accepted is read again, and one that was read is spelled by the bytes
/// that it was read from, and so is the list of such entries.
pub fn interfaces_have_laws()
    ensures again { IsReadAgain (named_at NETIF_LEN NETIF_NAME) spell_named NamedFits }
    ensures spelled { IsReadFromSpelling (named_at NETIF_LEN NETIF_NAME) spell_named NamedFits }
    ensures list_again { IsReadAgain (counted NETIF_COUNT (records_at (named_at NETIF_LEN NETIF_NAME))) (spell_counted spell_named) (CountedFits NamedFits) }
    ensures list_spelled { IsReadFromSpelling (counted NETIF_COUNT (records_at (named_at NETIF_LEN NETIF_NAME))) (spell_counted spell_named) (CountedFits NamedFits) }
{}

/// The entry of IPv4 addresses that is spelled and accepted is read again, and one that was read is spelled by the bytes that
/// it was read from, and so is the list of such entries.
pub fn nodes_have_laws()
    ensures again { IsReadAgain (address_at NODE_ADDRESS NODE_MASK 4) spell_address (AddressFits 4) }
    ensures spelled { IsReadFromSpelling (address_at NODE_ADDRESS NODE_MASK 4) spell_address (AddressFits 4) }
    ensures list_again { IsReadAgain (counted NODE_COUNT (records_at (address_at NODE_ADDRESS NODE_MASK 4))) (spell_counted spell_address) (CountedFits (AddressFits 4)) }
    ensures list_spelled { IsReadFromSpelling (counted NODE_COUNT (records_at (address_at NODE_ADDRESS NODE_MASK 4))) (spell_counted spell_address) (CountedFits (AddressFits 4)) }
{}

/// The entry of the behaviour of a file system that is spelled and accepted is read again, and one that was read is spelled by
/// the bytes that it was read from, and so is the list of such entries.
pub fn behaviours_have_laws()
    ensures again { IsReadAgain fsuse_at spell_fsuse FsUseFits }
    ensures spelled { IsReadFromSpelling fsuse_at spell_fsuse FsUseFits }
    ensures list_again { IsReadAgain (counted FSUSE_COUNT (records_at fsuse_at)) (spell_counted spell_fsuse) (CountedFits FsUseFits) }
    ensures list_spelled { IsReadFromSpelling (counted FSUSE_COUNT (records_at fsuse_at)) (spell_counted spell_fsuse) (CountedFits FsUseFits) }
{}

/// The entry of IPv6 addresses that is spelled and accepted is read again, and one that was read is spelled by the bytes that
/// it was read from, and so is the list of such entries.
pub fn nodes6_have_laws()
    ensures again { IsReadAgain (address_at NODE6_ADDRESS NODE6_MASK 16) spell_address (AddressFits 16) }
    ensures spelled { IsReadFromSpelling (address_at NODE6_ADDRESS NODE6_MASK 16) spell_address (AddressFits 16) }
    ensures list_again { IsReadAgain (counted NODE6_COUNT (records_at (address_at NODE6_ADDRESS NODE6_MASK 16))) (spell_counted spell_address) (CountedFits (AddressFits 16)) }
    ensures list_spelled { IsReadFromSpelling (counted NODE6_COUNT (records_at (address_at NODE6_ADDRESS NODE6_MASK 16))) (spell_counted spell_address) (CountedFits (AddressFits 16)) }
{}

/// The entry of partition keys that is spelled and accepted is read again, and one that was read is spelled by the bytes that
/// it was read from, and so is the list of such entries.
pub fn partition_keys_have_laws()
    ensures again { IsReadAgain ibpkey_at spell_ibpkey IbPkeyFits }
    ensures spelled { IsReadFromSpelling ibpkey_at spell_ibpkey IbPkeyFits }
    ensures list_again { IsReadAgain (counted IBPKEY_COUNT (records_at ibpkey_at)) (spell_counted spell_ibpkey) (CountedFits IbPkeyFits) }
    ensures list_spelled { IsReadFromSpelling (counted IBPKEY_COUNT (records_at ibpkey_at)) (spell_counted spell_ibpkey) (CountedFits IbPkeyFits) }
{}

/// The entry of the port of a device that is spelled and accepted is read again, and one that was read is spelled by the bytes
/// that it was read from, and so is the list of such entries.
pub fn device_ports_have_laws()
    ensures again { IsReadAgain ibendport_at spell_ibendport IbEndPortFits }
    ensures spelled { IsReadFromSpelling ibendport_at spell_ibendport IbEndPortFits }
    ensures list_again { IsReadAgain (counted IBENDPORT_COUNT (records_at ibendport_at)) (spell_counted spell_ibendport) (CountedFits IbEndPortFits) }
    ensures list_spelled { IsReadFromSpelling (counted IBENDPORT_COUNT (records_at ibendport_at)) (spell_counted spell_ibendport) (CountedFits IbEndPortFits) }
{}
