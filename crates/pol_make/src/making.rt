// A policy of so many types, made part by part.
ghost use Rattle.std.specs.Prelude.{◌≡◌, ◌∷◌, [], IfOk, OnOk};
ghost use Rattle.pol_make.specs.Made.{Allowed, made};
ghost use Rattle.set_nodes.specs.SetNodes.{set_of};
ghost use Rattle.pol_make.specs.MadeRules.{made_rules, made_rows, made_sids};
ghost use Rattle.pol_make.specs.MadeSymbols.{made_nprims, made_commons, made_classes, made_roles, made_types, made_users, made_booleans, made_levels, made_categories};

use crate::make_classes::{make_classes, make_commons};
use crate::make_rules::{make_rows, make_rules, make_sids};
use crate::make_symbols::{make_booleans, make_categories, make_levels, make_users};
use crate::make_types::{make_roles, make_types};
use pol_tree::Tree;
use set_nodes::set_of;
use std::alloc::{AllocError, Global};

/// A policy of n types in a ring, 200 to 5,000 and a multiple of 20. Each type has one transition, to the type after it, and one
/// attribute, which has twenty types.
#[tactic(auto, unfolding(crate::specs::Made::made))]
pub fn make(alloc: Global, n: u32) -> Result<Tree, AllocError>
    requires { Allowed n }
    ensures { IfOk result (λ tree. tree ≡ made n) }
{
    let mut tree = Tree::empty(alloc)?;
    make_front(alloc, n, &mut tree)?;
    make_symbols(alloc, n, &mut tree)?;
    make_lists(alloc, n, &mut tree)?;
    Ok(tree)
}

// Makes what stands before the symbol tables. Classes and permissions that the policy does not know are allowed, and it has levels.
fn make_front(alloc: Global, n: u32, tree: &mut Tree) -> Result<(), AllocError>
    requires { Allowed n }
    ensures { OnOk result (tree.new ≡ record tree.old {
      version = 31;
      config = 5;
      capabilities = set_of (1 ∷ []);
      permissive = set_of [];
      nprims = made_nprims n;
    }) }
{
    tree.version = 31;
    tree.config = 5;
    tree.capabilities = set_of(alloc, &[1])?;
    tree.permissive = set_of(alloc, &[])?;
    tree.nprims = nprims(n);
    Ok(())
}

// The greatest value of each symbol table.
#[tactic(auto, unfolding(crate::specs::MadeSymbols::made_nprims))]
fn nprims(n: u32) -> [u32; 8]
    requires { Allowed n }
    ensures { result ≡ made_nprims n }
{
    [1, 3, 2, n + n / 20, 1, 2, 1, 1024]
}

// Makes the records of the symbol tables.
fn make_symbols(alloc: Global, n: u32, tree: &mut Tree) -> Result<(), AllocError>
    requires { Allowed n }
    ensures { OnOk result (tree.new ≡ record tree.old {
      commons = made_commons;
      classes = made_classes;
      roles = made_roles n;
      types = made_types n;
      users = made_users;
      booleans = made_booleans;
      levels = made_levels;
      categories = made_categories;
    }) }
{
    tree.commons = make_commons(alloc)?;
    tree.classes = make_classes(alloc)?;
    tree.roles = make_roles(alloc, n)?;
    tree.types = make_types(alloc, n)?;
    tree.users = make_users(alloc)?;
    tree.booleans = make_booleans(alloc)?;
    tree.levels = make_levels(alloc)?;
    tree.categories = make_categories(alloc, 1024)?;
    Ok(())
}

// Makes the lists behind them that have records.
fn make_lists(alloc: Global, n: u32, tree: &mut Tree) -> Result<(), AllocError>
    requires { Allowed n }
    ensures { OnOk result (tree.new ≡ record tree.old { avtab = made_rules n; sid = made_sids; typemap = made_rows n }) }
{
    tree.avtab = make_rules(alloc, n)?;
    tree.sid = make_sids(alloc)?;
    tree.typemap = make_rows(alloc, n)?;
    Ok(())
}
