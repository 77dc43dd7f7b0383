// The lines of the contexts of objects.
ghost use Rattle.std.specs.Prelude.{◌≡◌, ◌++◌, IfOk, option_map};
ghost use Rattle.info_contexts.specs.SidLines.{sid_listing_of};
ghost use Rattle.info_contexts.specs.FsUseLines.{fsuse_listing_of};
ghost use Rattle.info_contexts.specs.GenfsLines.{genfs_listing_of};
ghost use Rattle.info_contexts.specs.NetifLines.{netif_listing_of};
ghost use Rattle.info_contexts.specs.NodeLines.{node_listing, node6_listing};
ghost use Rattle.info_contexts.specs.PortLines.{port_listing};
ghost use Rattle.info_contexts.specs.IbPkeyLines.{ibpkey_listing};
ghost use Rattle.info_contexts.specs.IbEndPortLines.{ibendport_listing};

use crate::entry_names::numbers_of_name;
use crate::genfs_entry::genfs_entries;
use crate::{
    FsUseLines, GenfsLines, IbEndPortLines, IbPkeyLines, NetifLines, Node6Lines, NodeLines,
    PortLines, SidLines, TableLines,
};
use info_lines::{ChainedLines, EntryLines, FileLines, NumberedLines};
use pol_read::Policy;
use std::alloc::{AllocError, Global};

/// The lines of the initial SIDs that are printed with the name, or of all where none is given, with their contexts where they are
/// expanded.
#[tactic(auto, using(crate::proofs::NamedEntries::chosen_there, crate::proofs::NamedEntries::chosen_lines, info_lines::proofs::FileOrder::as_many))]
pub fn sid_lines<'p, 'a>(
    alloc: Global,
    policy: &'p Policy<'a>,
    expand: bool,
    name: Option<&[u8]>,
) -> Result<NumberedLines<SidLines<'p, 'a>>, AllocError>
    ensures { IfOk result (λ lines. lines ≡ sid_listing_of expand policy.now.symbols (option_map (λ name. name.now) name.entry) policy.now.labels.contexts.sid) }
{
    let sids = &policy.contexts().sid;
    let numbers = numbers_of_name(alloc, sids, sids.len(), name)?;
    let lines = SidLines::new(sids, policy.symbols(), expand);
    Ok(NumberedLines::new(lines, numbers))
}

/// The lines of how the files of the file systems of the name get their contexts, or of all where none is given.
pub fn fsuse_lines<'p, 'a>(
    alloc: Global,
    policy: &'p Policy<'a>,
    name: Option<&[u8]>,
) -> Result<NumberedLines<FsUseLines<'p, 'a>>, AllocError>
    ensures { IfOk result (λ lines. lines ≡ fsuse_listing_of policy.now.symbols (option_map (λ name. name.now) name.entry) policy.now.labels.contexts.fsuse) }
{
    TableLines::named(alloc, &policy.contexts().fsuse, policy.symbols(), name)
}

/// The lines of the paths of the file systems of the name that have no labels of their own, or of all where none is given.
pub fn genfs_lines<'p, 'a>(
    alloc: Global,
    policy: &'p Policy<'a>,
    name: Option<&[u8]>,
) -> Result<EntryLines<GenfsLines<'p, 'a>>, AllocError>
    ensures { IfOk result (λ lines. lines ≡ genfs_listing_of policy.now.symbols (option_map (λ name. name.now) name.entry) policy.now.labels.genfs) }
{
    let entries = genfs_entries(alloc, policy.genfs(), name)?;
    Ok(EntryLines::new(GenfsLines::new(entries, policy.symbols())))
}

/// The lines of the network interfaces of the name, or of all where none is given.
pub fn netif_lines<'p, 'a>(
    alloc: Global,
    policy: &'p Policy<'a>,
    name: Option<&[u8]>,
) -> Result<NumberedLines<NetifLines<'p, 'a>>, AllocError>
    ensures { IfOk result (λ lines. lines ≡ netif_listing_of policy.now.symbols (option_map (λ name. name.now) name.entry) policy.now.labels.contexts.netif) }
{
    TableLines::named(alloc, &policy.contexts().netif, policy.symbols(), name)
}

/// The lines of nodes: of IPv4 addresses, and then of IPv6 addresses.
pub fn node_lines<'p, 'a>(
    policy: &'p Policy<'a>,
) -> ChainedLines<NodeLines<'p, 'a>, Node6Lines<'p, 'a>>
    ensures { result ≡ node_listing policy.now.symbols policy.now.labels.contexts.node
        ++ node6_listing policy.now.symbols policy.now.labels.contexts.node6 }
{
    let contexts = policy.contexts();
    let symbols = policy.symbols();
    ChainedLines::new(
        TableLines::all(&contexts.node, symbols),
        TableLines::all(&contexts.node6, symbols),
    )
}

/// The lines of ranges of ports.
pub fn port_lines<'p, 'a>(policy: &'p Policy<'a>) -> FileLines<PortLines<'p, 'a>>
    ensures { result ≡ port_listing policy.now.symbols policy.now.labels.contexts.port }
{
    TableLines::all(&policy.contexts().port, policy.symbols())
}

/// The lines of InfiniBand partition keys.
pub fn ibpkey_lines<'p, 'a>(policy: &'p Policy<'a>) -> FileLines<IbPkeyLines<'p, 'a>>
    ensures { result ≡ ibpkey_listing policy.now.symbols policy.now.labels.contexts.ibpkey }
{
    TableLines::all(&policy.contexts().ibpkey, policy.symbols())
}

/// The lines of InfiniBand devices at ports.
pub fn ibendport_lines<'p, 'a>(policy: &'p Policy<'a>) -> FileLines<IbEndPortLines<'p, 'a>>
    ensures { result ≡ ibendport_listing policy.now.symbols policy.now.labels.contexts.ibendport }
{
    TableLines::all(&policy.contexts().ibendport, policy.symbols())
}
