// The optional parts of a tree, and that its numbers fit where none of them is wrong.
ghost use Rattle.std.specs.Prelude.{◌≡◌, ℕ, ◌<◌, ◌≤◌, ◌^◌, None, length, slice_index};
ghost use Rattle.pol_fields.specs.declared.limits.TheConstants.{MAX_POLICY_BYTES};
ghost use Rattle.pol_bitmap.specs.Bitmap.{spell_bitmap, BitmapFits};
ghost use Rattle.pol_tree.specs.Inner.Fitting.{IsFitting};
ghost use Rattle.pol_tree.specs.Inner.FittingTree.{SymbolsFit, RulesFit, ContextsFit, LabelsFit};
ghost use Rattle.pol_tree.specs.TreeRanges.{TreeFits};
ghost use Rattle.pol_tree.specs.TreeShape.{shape_of_symbols, shape_of_rules, shape_of_contexts, shape_of_labels, shape};
ghost use Rattle.pol_tree.specs.TreeSpelling.{spell};

use crate::fitting::{Fitting, first_wrong, wrong_in, wrong_list, wrong_where};
use crate::tree::Tree;
use pol_contexts::has_infiniband;
use pol_fields::Field;
use pol_fields::fields::{
    BITMAP_UNIT, IBENDPORT_COUNT, IBPKEY_COUNT, NAMEGROUP_COUNT, NAMETRANS_COUNT,
};
use pol_trans::has_groups;

/// The field of the first optional part of a tree, in the order of the file, that is there and must not be or is not there and has
/// to be. A tree that has none fits its fields, if its bytes are no more than those of a policy. It takes no memory.
pub fn wrong_part_of(tree: &Tree) -> Option<Field>
    ensures shape { result ≡ shape tree.now }
    ensures fits { shape tree.now ≡ None → length (spell tree.now) ≤ MAX_POLICY_BYTES → TreeFits tree.now }
{
    look_at_nprims(&tree.nprims);
    first_wrong(&[
        wrong_in_front(tree),
        wrong_in_symbols(tree),
        wrong_in_rules(tree),
        wrong_in_labels(tree),
    ])
}

// Reads the greatest values of the symbol tables. It has no effect.
fn look_at_nprims(nprims: &[u32; 8])
    ensures count { length nprims.now ≡ 8 }
    ensures each { (i : ℕ) → slice_index nprims.now i < 2 ^ 32 }
{
    look_at_numbers(nprims);
    let _nprims = *nprims;
}

// Takes numbers as they are.
fn look_at_numbers(numbers: &[u32])
    ensures { (i : ℕ) → slice_index numbers.now i < 2 ^ 32 }
{}

// What stands before the symbol tables has no optional part.
#[tactic(auto, unfolding(crate::specs::OptionalParts::first_of))]
fn wrong_in_front(tree: &Tree) -> Option<Field>
    ensures shape { result ≡ None }
    ensures version { tree.now.version < 2 ^ 32 }
    ensures config { tree.now.config < 2 ^ 32 }
    ensures capabilities { IsFitting (λ set. None) BitmapFits spell_bitmap tree.now.capabilities }
    ensures permissive { IsFitting (λ set. None) BitmapFits spell_bitmap tree.now.permissive }
{
    let version = tree.version;
    let _config = tree.config;
    first_wrong(&[
        tree.capabilities.wrong_part(version),
        tree.permissive.wrong_part(version),
    ])
}

// The field of the first wrong optional part of the symbol tables.
fn wrong_in_symbols(tree: &Tree) -> Option<Field>
    ensures shape { result ≡ shape_of_symbols tree.now }
    ensures fits { SymbolsFit tree.now }
{
    let version = tree.version;
    first_wrong(&[
        wrong_in(&tree.commons, version),
        wrong_in(&tree.classes, version),
        wrong_in(&tree.roles, version),
        wrong_in(&tree.types, version),
        wrong_in(&tree.users, version),
        wrong_in(&tree.booleans, version),
        wrong_in(&tree.levels, version),
        wrong_in(&tree.categories, version),
    ])
}

// The field of the first wrong optional part of the rules.
fn wrong_in_rules(tree: &Tree) -> Option<Field>
    ensures shape { result ≡ shape_of_rules tree.now }
    ensures fits { RulesFit tree.now }
{
    let version = tree.version;
    let grouped = has_groups(version);
    first_wrong(&[
        wrong_in(&tree.avtab, version),
        wrong_in(&tree.condlist, version),
        wrong_in(&tree.roletrans, version),
        wrong_in(&tree.roleallow, version),
        wrong_list(!grouped, &tree.nametrans, NAMETRANS_COUNT),
        wrong_in(&tree.nametrans, version),
        wrong_list(grouped, &tree.namegroup, NAMEGROUP_COUNT),
        wrong_in(&tree.namegroup, version),
    ])
}

// The field of the first wrong optional part of the tables of contexts.
fn wrong_in_contexts(tree: &Tree) -> Option<Field>
    ensures shape { result ≡ shape_of_contexts tree.now }
    ensures fits { ContextsFit tree.now }
{
    let version = tree.version;
    let infiniband = has_infiniband(version);
    first_wrong(&[
        wrong_in(&tree.sid, version),
        wrong_in(&tree.fs, version),
        wrong_in(&tree.port, version),
        wrong_in(&tree.netif, version),
        wrong_in(&tree.node, version),
        wrong_in(&tree.fsuse, version),
        wrong_in(&tree.node6, version),
        wrong_list(infiniband, &tree.ibpkey, IBPKEY_COUNT),
        wrong_in(&tree.ibpkey, version),
        wrong_list(infiniband, &tree.ibendport, IBENDPORT_COUNT),
        wrong_in(&tree.ibendport, version),
    ])
}

// The field of the first wrong optional part of what stands behind the rules.
fn wrong_in_labels(tree: &Tree) -> Option<Field>
    ensures shape { result ≡ shape_of_labels tree.now }
    ensures fits { LabelsFit tree.now }
{
    let version = tree.version;
    let rows = tree.typemap.len() == tree.nprims[3] as usize;
    first_wrong(&[
        wrong_in_contexts(tree),
        wrong_in(&tree.genfs, version),
        wrong_in(&tree.rangetrans, version),
        wrong_where(!rows, BITMAP_UNIT),
        wrong_in(&tree.typemap, version),
    ])
}
