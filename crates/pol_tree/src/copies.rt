// The tree of a policy, copied part by part.
ghost use Rattle.std.specs.Prelude.{◌≡◌, IfOk, OnOk};
ghost use Rattle.pol_cursor.specs.References.{values_of};
ghost use Rattle.pol_tree.specs.PolicyTree.{entries_of, groups_of, nprims_of, tree_of};

use crate::copied_lists::{copy_classes, copy_entries, copy_groups, copy_nodes, copy_rows};
use crate::tree::Tree;
use pol_bitmap::Set;
use pol_contexts::Contexts;
use pol_cursor::Copied;
use pol_fields::TableKind;
use pol_read::Policy;
use pol_symbols::Symbols;
use std::alloc::{AllocError, Global};

/// The policy, owned.
#[tactic(auto, unfolding(crate::specs::PolicyTree::tree_of))]
pub fn tree_of(alloc: Global, policy: &Policy<'_>) -> Result<Tree, AllocError>
    ensures { IfOk result (λ tree. tree ≡ tree_of policy.now) }
{
    let mut tree = Tree::empty(alloc)?;
    copy_parts(alloc, policy, &mut tree)?;
    Ok(tree)
}

// Copies each part of a policy in its place.
#[tactic(auto, unfolding(crate::specs::PolicyTree::tree_of))]
fn copy_parts(alloc: Global, policy: &Policy<'_>, tree: &mut Tree) -> Result<(), AllocError>
    ensures { OnOk result (tree.new ≡ tree_of policy.now) }
{
    copy_front(alloc, policy, tree)?;
    copy_symbols(alloc, policy.symbols(), tree)?;
    copy_rules(alloc, policy, tree)?;
    copy_contexts(alloc, policy.contexts(), tree)?;
    copy_labels(alloc, policy, tree)
}

// Copies what stands before the symbol tables.
fn copy_front(alloc: Global, policy: &Policy<'_>, tree: &mut Tree) -> Result<(), AllocError>
    ensures { OnOk result (tree.new ≡ record tree.old {
      version = policy.now.front.header.version;
      config = policy.now.front.header.config;
      capabilities = policy.now.front.capabilities;
      permissive = policy.now.front.permissive;
    }) }
{
    tree.version = policy.version();
    tree.config = policy.config();
    tree.capabilities = Set::from_view(alloc, policy.capabilities())?;
    tree.permissive = Set::from_view(alloc, policy.permissive())?;
    Ok(())
}

// Copies the records of the symbol tables.
fn copy_symbols(alloc: Global, symbols: &Symbols<'_>, tree: &mut Tree) -> Result<(), AllocError>
    ensures { OnOk result (tree.new ≡ record tree.old {
      nprims = nprims_of symbols.now;
      commons = values_of symbols.now.commons.records;
      classes = values_of symbols.now.classes.records;
      roles = values_of symbols.now.roles.records;
      types = values_of symbols.now.types.records;
      users = values_of symbols.now.users.records;
      booleans = values_of symbols.now.booleans.records;
      levels = values_of symbols.now.levels.records;
      categories = values_of symbols.now.categories.records;
    }) }
{
    tree.nprims = nprims_of(symbols);
    tree.commons = symbols.commons.rec(alloc)?;
    tree.classes = copy_classes(alloc, &symbols.classes)?;
    tree.roles = symbols.roles.rec(alloc)?;
    tree.types = symbols.types.rec(alloc)?;
    tree.users = symbols.users.rec(alloc)?;
    tree.booleans = symbols.booleans.rec(alloc)?;
    tree.levels = symbols.levels.rec(alloc)?;
    tree.categories = symbols.categories.rec(alloc)?;
    Ok(())
}

// Copies the rules but for the range transitions.
fn copy_rules(alloc: Global, policy: &Policy<'_>, tree: &mut Tree) -> Result<(), AllocError>
    ensures { OnOk result (tree.new ≡ record tree.old {
      avtab = values_of policy.now.rules.table;
      condlist = values_of policy.now.rules.conditionals;
      roletrans = values_of policy.now.rules.role_trans;
      roleallow = values_of policy.now.rules.role_allows;
      nametrans = entries_of policy.now.rules.name_trans;
      namegroup = groups_of policy.now.rules.name_trans;
    }) }
{
    tree.avtab = policy.table().rec(alloc)?;
    tree.condlist = copy_nodes(alloc, policy.conditionals())?;
    tree.roletrans = policy.role_trans().rec(alloc)?;
    tree.roleallow = policy.role_allows().rec(alloc)?;
    tree.nametrans = copy_entries(alloc, policy.name_trans())?;
    tree.namegroup = copy_groups(alloc, policy.name_trans())?;
    Ok(())
}

// Copies the tables of contexts.
fn copy_contexts(alloc: Global, contexts: &Contexts<'_>, tree: &mut Tree) -> Result<(), AllocError>
    ensures { OnOk result (tree.new ≡ record tree.old {
      sid = values_of contexts.now.sid;
      fs = values_of contexts.now.fs;
      port = values_of contexts.now.port;
      netif = values_of contexts.now.netif;
      node = values_of contexts.now.node;
      fsuse = values_of contexts.now.fsuse;
      node6 = values_of contexts.now.node6;
      ibpkey = values_of contexts.now.ibpkey;
      ibendport = values_of contexts.now.ibendport;
    }) }
{
    tree.sid = contexts.sid.rec(alloc)?;
    tree.fs = contexts.fs.rec(alloc)?;
    tree.port = contexts.port.rec(alloc)?;
    tree.netif = contexts.netif.rec(alloc)?;
    tree.node = contexts.node.rec(alloc)?;
    tree.fsuse = contexts.fsuse.rec(alloc)?;
    tree.node6 = contexts.node6.rec(alloc)?;
    tree.ibpkey = contexts.ibpkey.rec(alloc)?;
    tree.ibendport = contexts.ibendport.rec(alloc)?;
    Ok(())
}

// Copies what stands behind the tables of contexts.
fn copy_labels(alloc: Global, policy: &Policy<'_>, tree: &mut Tree) -> Result<(), AllocError>
    ensures { OnOk result (tree.new ≡ record tree.old {
      genfs = values_of policy.now.labels.genfs;
      rangetrans = values_of policy.now.labels.range_trans;
      typemap = values_of policy.now.labels.type_rows;
    }) }
{
    tree.genfs = policy.genfs().rec(alloc)?;
    tree.rangetrans = policy.range_trans().rec(alloc)?;
    tree.typemap = copy_rows(alloc, policy)?;
    Ok(())
}

// The greatest value of each symbol table.
fn nprims_of(symbols: &Symbols<'_>) -> [u32; 8]
    ensures { result ≡ nprims_of symbols.now }
{
    [
        symbols.prims(TableKind::Commons),
        symbols.prims(TableKind::Classes),
        symbols.prims(TableKind::Roles),
        symbols.prims(TableKind::Types),
        symbols.prims(TableKind::Users),
        symbols.prims(TableKind::Booleans),
        symbols.prims(TableKind::Levels),
        symbols.prims(TableKind::Categories),
    ]
}
