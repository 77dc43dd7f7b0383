// A tree at another version.
ghost use Rattle.std.specs.Prelude.{◌≡◌, ◌≤◌, ◌+◌, false, nat_lt, None, IfOk, length};
ghost use Rattle.std.specs.List.{All};
ghost use Rattle.pol_trans.specs.NameTransitions.{has_groups};
ghost use Rattle.pol_convert.specs.Ungrouped.{entries_length, ungrouped};
ghost use Rattle.pol_fields.specs.declared.limits.TheConstants.{MAX_POLICY_BYTES};
ghost use Rattle.pol_tree.specs.TreeSpelling.{spell};
ghost use Rattle.pol_versions.specs.Conversion.{cannot, converted, too_long, tree_at, with_entries, with_groups, Converts, IsPolicyTree};
ghost use Rattle.pol_versions.specs.Losses.{lost_part};
ghost use Rattle.pol_versions.specs.Inner.Steps.{bare};

use crate::constraints::classes_at;
use crate::declared::values_of_types;
use crate::errors::ConvertError;
use crate::losses::lost_part;
use pol_bitmap::Set;
use pol_convert::{group, ungroup, ungrouped_length};
use pol_cursor::OwnedList;
use pol_fields::limits::MAX_POLICY_BYTES;
use pol_trans::{NameGroupRec, has_groups};
use pol_tree::Tree;
use pol_unheld::Unheld;
use std::alloc::{AllocError, Global};
use std::mem::replace;
use tree_pages::tree_length;

/// The tree of a policy at a version of the format, from 28 to 34: the same records, but for what is said below. The error is the first
/// part that the version cannot hold.
///
/// From version 33 on file-name transitions stand in groups, and below it one by one; a source of a group that no type declares has no
/// rule, and is left out there. From version 29 on the items of constraints have the types that they were written with; where none were
/// kept, they are empty. How long the entries of groups are is counted before one is made, and the bytes of the others are counted record
/// by record.
pub fn convert(alloc: Global, tree: Tree, version: u32) -> Result<Tree, ConvertError>
    requires { IsPolicyTree tree }
    ensures { Converts (cannot tree version) (converted tree version) result }
{
    match lost_part(&tree, version) {
        Some(part) => Err(ConvertError::CannotHold(part)),
        None => converted(alloc, tree, version),
    }
}

// The tree at a version that has room for its parts, unless it has too many bytes then.
#[tactic(auto, unfolding(crate::specs::Conversion::converted))]
fn converted(alloc: Global, tree: Tree, version: u32) -> Result<Tree, ConvertError>
    requires { IsPolicyTree tree }
    ensures { Converts (too_long (converted tree version)) (converted tree version) result }
{
    let grouped = has_groups(tree.version);
    let tree = at_version(alloc, tree, version)?;
    if grouped && !has_groups(version) {
        return with_entries(alloc, tree);
    }
    if !grouped && has_groups(version) {
        return within_limit(alloc, with_groups(alloc, tree)?);
    }
    within_limit(alloc, tree)
}

// The tree with another version and the type sets that it has, and the file-name transitions as they were.
fn at_version(alloc: Global, tree: Tree, version: u32) -> Result<Tree, AllocError>
    ensures { IfOk result (λ new. new ≡ tree_at version tree) }
{
    let mut tree = tree;
    tree.version = version;
    let classes = replace(&mut tree.classes, OwnedList::from_vec(Vec::new(alloc)));
    tree.classes = classes_at(alloc, classes, version)?;
    Ok(tree)
}

// The tree with groups in place of entries.
fn with_groups(alloc: Global, tree: Tree) -> Result<Tree, AllocError>
    requires { All (λ entry. 1 ≤ entry.source) tree.nametrans }
    ensures { IfOk result (λ new. new ≡ with_groups tree) }
{
    let mut tree = tree;
    let groups = group(alloc, tree.nametrans.as_slice())?;
    tree.namegroup = OwnedList::from_vec(groups);
    tree.nametrans = OwnedList::from_vec(Vec::new(alloc));
    Ok(tree)
}

// The tree with entries in place of groups, unless it has too many bytes with them.
fn with_entries(alloc: Global, tree: Tree) -> Result<Tree, ConvertError>
    requires { has_groups tree.version ≡ false }
    ensures { Converts (too_long (with_entries tree)) (with_entries tree) result }
{
    let declared = values_of_types(alloc, tree.types.as_slice())?;
    let (tree, groups) = without_names(alloc, tree);
    let long = is_too_long(alloc, &tree, groups.as_slice(), &declared)?;
    if long {
        return Err(ConvertError::CannotHold(Unheld::TooLong));
    }
    let mut tree = tree;
    tree.nametrans = OwnedList::from_vec(ungroup(alloc, groups.as_slice(), &declared)?);
    Ok(tree)
}

// The tree without file-name transitions, and the groups that it had.
fn without_names(alloc: Global, tree: Tree) -> (Tree, OwnedList<NameGroupRec>)
    ensures tree { result.0 ≡ bare tree }
    ensures groups { result.1 ≡ tree.namegroup }
{
    let mut tree = tree;
    tree.nametrans = OwnedList::from_vec(Vec::new(alloc));
    let groups = replace(&mut tree.namegroup, OwnedList::from_vec(Vec::new(alloc)));
    (tree, groups)
}

// Whether a tree has too many bytes when the entries of groups come to it.
fn is_too_long(
    alloc: Global,
    tree: &Tree,
    groups: &[NameGroupRec],
    declared: &Set,
) -> Result<bool, AllocError>
    ensures { IfOk result (λ long. long ≡ nat_lt MAX_POLICY_BYTES (length (spell tree.now) + entries_length (ungrouped declared.now groups.now))) }
{
    let others = tree_length(alloc, tree)?;
    let entries = ungrouped_length(groups, declared);
    Ok(entries.saturating_add(others) > MAX_POLICY_BYTES as u64)
}

// The tree, unless it has too many bytes.
#[tactic(auto, unfolding(crate::specs::Conversion::too_long))]
fn within_limit(alloc: Global, tree: Tree) -> Result<Tree, ConvertError>
    ensures { Converts (too_long tree) tree result }
{
    if tree_length(alloc, &tree)? > MAX_POLICY_BYTES as u64 {
        return Err(ConvertError::CannotHold(Unheld::TooLong));
    }
    Ok(tree)
}
