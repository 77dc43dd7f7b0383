// The lines of each listing, as they are asked for.
ghost use Rattle.std.specs.Prelude.{◌≡◌, true, IfOk, option_map};
ghost use Rattle.info_symbols.specs.SymbolListings.{symbol_listing};
ghost use Rattle.info_symbols.specs.TypeListings.{set_listing};
ghost use Rattle.info_classes.specs.ConstraintLines.{constraint_listing};
ghost use Rattle.info_classes.specs.DefaultLines.{default_listing};
ghost use Rattle.info_query.specs.Listings.{attribute_lines, left_of, lines_of};

use crate::capabilities::{CapabilityLines, capability_lines};
use info_classes::{
    BoundsLines, ConstraintKind, ConstraintLines, DefaultLines, bounds_lines, constraint_lines,
    default_lines,
};
use info_contexts::{
    FsUseLines, GenfsLines, IbEndPortLines, IbPkeyLines, NetifLines, Node6Lines, NodeLines,
    PortLines, SidLines, fsuse_lines, genfs_lines, ibendport_lines, ibpkey_lines, netif_lines,
    node_lines, port_lines, sid_lines,
};
use info_lines::{ChainedLines, EntryLines, FileLines, Lines, Listing, NumberedLines};
use info_symbols::{
    AttributeLines, SymbolLines, TypeLines, TypeSet, attribute_statements,
    attribute_statements_named, set_lines, symbol_lines,
};
use pol_fields::TableKind;
use pol_read::Policy;
use std::alloc::{AllocError, Global};

/// The lines of a listing, by how they are made.
#[derive(Drop)]
pub enum ListingLines<'p, 'a> {
    /// The lines of classes, commons, roles, users, booleans, sensitivities and categories.
    Symbols(NumberedLines<SymbolLines<'p, 'a>>),
    /// The lines of types, permissive types, and attributes by their names.
    Types(NumberedLines<TypeLines<'p, 'a>>),
    /// The lines of attributes with their types.
    Attributes(AttributeLines<'p, 'a>),
    /// The lines of both kinds of constraints.
    Constraints(EntryLines<ConstraintLines<'p, 'a>>),
    Defaults(EntryLines<DefaultLines<'a>>),
    Typebounds(EntryLines<BoundsLines<'p, 'a>>),
    InitialSids(NumberedLines<SidLines<'p, 'a>>),
    FsUses(NumberedLines<FsUseLines<'p, 'a>>),
    Genfscons(EntryLines<GenfsLines<'p, 'a>>),
    Netifcons(NumberedLines<NetifLines<'p, 'a>>),
    Nodecons(ChainedLines<NodeLines<'p, 'a>, Node6Lines<'p, 'a>>),
    Portcons(FileLines<PortLines<'p, 'a>>),
    Ibpkeycons(FileLines<IbPkeyLines<'p, 'a>>),
    Ibendportcons(FileLines<IbEndPortLines<'p, 'a>>),
    Capabilities(NumberedLines<CapabilityLines>),
}

impl<'p, 'a> Lines for ListingLines<'p, 'a> {
    ghost left = { left_of };

    fn count(&self) -> u64 {
        match self {
            ListingLines::Symbols(lines) => lines.count(),
            ListingLines::Types(lines) => lines.count(),
            ListingLines::Attributes(lines) => lines.count(),
            ListingLines::Constraints(lines) => lines.count(),
            ListingLines::Defaults(lines) => lines.count(),
            ListingLines::Typebounds(lines) => lines.count(),
            ListingLines::InitialSids(lines) => lines.count(),
            ListingLines::FsUses(lines) => lines.count(),
            ListingLines::Genfscons(lines) => lines.count(),
            ListingLines::Netifcons(lines) => lines.count(),
            ListingLines::Nodecons(lines) => lines.count(),
            ListingLines::Portcons(lines) => lines.count(),
            ListingLines::Ibpkeycons(lines) => lines.count(),
            ListingLines::Ibendportcons(lines) => lines.count(),
            ListingLines::Capabilities(lines) => lines.count(),
        }
    }

    fn push_line(&mut self, buffer: &mut Vec<u8>) -> Result<(), AllocError> {
        match self {
            ListingLines::Symbols(lines) => lines.push_line(buffer),
            ListingLines::Types(lines) => lines.push_line(buffer),
            ListingLines::Attributes(lines) => lines.push_line(buffer),
            ListingLines::Constraints(lines) => lines.push_line(buffer),
            ListingLines::Defaults(lines) => lines.push_line(buffer),
            ListingLines::Typebounds(lines) => lines.push_line(buffer),
            ListingLines::InitialSids(lines) => lines.push_line(buffer),
            ListingLines::FsUses(lines) => lines.push_line(buffer),
            ListingLines::Genfscons(lines) => lines.push_line(buffer),
            ListingLines::Netifcons(lines) => lines.push_line(buffer),
            ListingLines::Nodecons(lines) => lines.push_line(buffer),
            ListingLines::Portcons(lines) => lines.push_line(buffer),
            ListingLines::Ibpkeycons(lines) => lines.push_line(buffer),
            ListingLines::Ibendportcons(lines) => lines.push_line(buffer),
            ListingLines::Capabilities(lines) => lines.push_line(buffer),
        }
    }
}

/// What was found of a listing: its lines, or `None` where its name is looked up and finds no record.
type Found<'p, 'a> = Result<Option<ListingLines<'p, 'a>>, AllocError>;

/// The lines of a listing of a policy, plain or expanded: those of a name, or all. Where the listing looks its name up and finds
/// no record, `None`.
///
/// The contexts of addresses, ports and InfiniBand objects and the bounds of types do not look at the name.
#[tactic(auto, unfolding(crate::specs::Listings::lines_of))]
pub fn lines_of<'p, 'a>(
    alloc: Global,
    policy: &'p Policy<'a>,
    expand: bool,
    listing: Listing,
    name: Option<&[u8]>,
) -> Found<'p, 'a>
    ensures { IfOk result (λ lines. option_map left_of lines ≡ lines_of policy.now expand listing (option_map (λ name. name.now) name.entry)) }
{
    match listing {
        Listing::Classes => table_lines(alloc, policy, TableKind::Classes, expand, name),
        Listing::Commons => table_lines(alloc, policy, TableKind::Commons, expand, name),
        Listing::Constraints => constraints(alloc, policy, ConstraintKind::OnPermissions, name),
        Listing::Validatetrans => constraints(alloc, policy, ConstraintKind::OnChange, name),
        Listing::Defaults => defaults(alloc, policy, name),
        Listing::Roles => table_lines(alloc, policy, TableKind::Roles, expand, name),
        Listing::Types => types(alloc, policy, TypeSet::PlainTypes, expand, name),
        Listing::Attributes => attributes(alloc, policy, expand, name),
        Listing::Users => table_lines(alloc, policy, TableKind::Users, expand, name),
        Listing::Booleans => table_lines(alloc, policy, TableKind::Booleans, expand, name),
        Listing::Sensitivities => table_lines(alloc, policy, TableKind::Levels, expand, name),
        Listing::Categories => table_lines(alloc, policy, TableKind::Categories, expand, name),
        Listing::InitialSids => Ok(Some(ListingLines::InitialSids(sid_lines(
            alloc, policy, expand, name,
        )?))),
        Listing::FsUses => Ok(Some(ListingLines::FsUses(fsuse_lines(alloc, policy, name)?))),
        Listing::Genfscons => Ok(Some(ListingLines::Genfscons(genfs_lines(alloc, policy, name)?))),
        Listing::Netifcons => Ok(Some(ListingLines::Netifcons(netif_lines(alloc, policy, name)?))),
        Listing::Nodecons => Ok(Some(ListingLines::Nodecons(node_lines(policy)))),
        Listing::Portcons => Ok(Some(ListingLines::Portcons(port_lines(policy)))),
        Listing::Ibpkeycons => Ok(Some(ListingLines::Ibpkeycons(ibpkey_lines(policy)))),
        Listing::Ibendportcons => Ok(Some(ListingLines::Ibendportcons(ibendport_lines(policy)))),
        Listing::Permissives => types(alloc, policy, TypeSet::PermissiveTypes, expand, name),
        Listing::Capabilities => Ok(Some(ListingLines::Capabilities(capability_lines(
            alloc, policy, expand, name,
        )?))),
        Listing::Typebounds => Ok(Some(ListingLines::Typebounds(bounds_lines(alloc, policy)?))),
    }
}

// The lines of the records of a table.
fn table_lines<'p, 'a>(
    alloc: Global,
    policy: &'p Policy<'a>,
    table: TableKind,
    expand: bool,
    name: Option<&[u8]>,
) -> Found<'p, 'a>
    ensures { IfOk result (λ lines. option_map left_of lines ≡ symbol_listing policy.now.symbols table expand (option_map (λ name. name.now) name.entry)) }
{
    match symbol_lines(alloc, policy.symbols(), table, expand, name)? {
        Some(lines) => Ok(Some(ListingLines::Symbols(lines))),
        None => Ok(None),
    }
}

// The lines of the constraints of a kind.
fn constraints<'p, 'a>(
    alloc: Global,
    policy: &'p Policy<'a>,
    kind: ConstraintKind,
    name: Option<&[u8]>,
) -> Found<'p, 'a>
    ensures { IfOk result (λ lines. option_map left_of lines ≡ constraint_listing policy.now.symbols kind (option_map (λ name. name.now) name.entry)) }
{
    match constraint_lines(alloc, policy.symbols(), kind, name)? {
        Some(lines) => Ok(Some(ListingLines::Constraints(lines))),
        None => Ok(None),
    }
}

// The lines of default rules.
fn defaults<'p, 'a>(alloc: Global, policy: &'p Policy<'a>, name: Option<&[u8]>) -> Found<'p, 'a>
    ensures { IfOk result (λ lines. option_map left_of lines ≡ default_listing policy.now.symbols (option_map (λ name. name.now) name.entry)) }
{
    match default_lines(alloc, policy.symbols(), name)? {
        Some(lines) => Ok(Some(ListingLines::Defaults(lines))),
        None => Ok(None),
    }
}

// The lines of a set of types.
fn types<'p, 'a>(
    alloc: Global,
    policy: &'p Policy<'a>,
    set: TypeSet,
    expand: bool,
    name: Option<&[u8]>,
) -> Found<'p, 'a>
    ensures { IfOk result (λ lines. option_map left_of lines ≡ set_listing policy.now set expand (option_map (λ name. name.now) name.entry)) }
{
    match set_lines(alloc, policy, set, expand, name)? {
        Some(lines) => Ok(Some(ListingLines::Types(lines))),
        None => Ok(None),
    }
}

// The lines of attributes.
#[tactic(auto, unfolding(crate::specs::Listings::attribute_lines))]
fn attributes<'p, 'a>(
    alloc: Global,
    policy: &'p Policy<'a>,
    expand: bool,
    name: Option<&[u8]>,
) -> Found<'p, 'a>
    ensures { IfOk result (λ lines. option_map left_of lines ≡ attribute_lines policy.now expand (option_map (λ name. name.now) name.entry)) }
{
    if expand {
        statements(alloc, policy, name)
    } else {
        types(alloc, policy, TypeSet::Attributes, false, name)
    }
}

// The lines of attributes with their types.
#[tactic(auto, unfolding(crate::specs::Listings::attribute_lines))]
fn statements<'p, 'a>(alloc: Global, policy: &'p Policy<'a>, name: Option<&[u8]>) -> Found<'p, 'a>
    ensures { IfOk result (λ lines. option_map left_of lines ≡ attribute_lines policy.now true (option_map (λ name. name.now) name.entry)) }
{
    match name {
        None => Ok(Some(ListingLines::Attributes(attribute_statements(alloc, policy)?))),
        Some(name) => match attribute_statements_named(alloc, policy, name)? {
            Some(lines) => Ok(Some(ListingLines::Attributes(lines))),
            None => Ok(None),
        },
    }
}
