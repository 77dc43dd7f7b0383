// Copies of the lists of a policy.
ghost use Rattle.std.specs.Prelude.{◌≡◌, IfOk};
ghost use Rattle.pol_cursor.specs.References.{values_of};
ghost use Rattle.pol_tree.specs.PolicyTree.{entries_of, groups_of};

use pol_bitmap::{Set, SetList};
use pol_classes::{Class, ClassRecList, ClassTable};
use pol_conditionals::{CondNodeRecList, Conditionals};
use pol_cursor::{Copied, OwnedList};
use pol_read::Policy;
use pol_trans::{NameGroupRecList, NameTrans, NameTransRecList};
use std::alloc::{AllocError, Global};

/// Copies the classes. A view knows by itself how its class is laid out.
pub fn copy_classes(alloc: Global, classes: &ClassTable<'_>) -> Result<ClassRecList, AllocError>
    ensures { IfOk result (λ list. list ≡ values_of classes.now.records) }
{
    let mut list = Vec::new(alloc);
    for i in 0..classes.len() {
        list.push(Class::<29>::rec(&classes.view(i), alloc)?)?;
    }
    Ok(OwnedList::from_vec(list))
}

/// Copies the conditional nodes.
pub fn copy_nodes(alloc: Global, nodes: &Conditionals<'_>) -> Result<CondNodeRecList, AllocError>
    ensures { IfOk result (λ list. list ≡ values_of nodes.now) }
{
    let mut list = Vec::new(alloc);
    for i in 0..nodes.len() {
        list.push(nodes.view(i).rec(alloc)?)?;
    }
    Ok(OwnedList::from_vec(list))
}

/// Copies the file-name transitions that stand one by one.
pub fn copy_entries(alloc: Global, trans: &NameTrans<'_>) -> Result<NameTransRecList, AllocError>
    ensures { IfOk result (λ list. list ≡ entries_of trans.now) }
{
    match trans {
        NameTrans::Entries(entries) => entries.rec(alloc),
        NameTrans::Groups(_) => Ok(OwnedList::from_vec(Vec::new(alloc))),
    }
}

/// Copies the file-name transitions that stand as groups.
pub fn copy_groups(alloc: Global, trans: &NameTrans<'_>) -> Result<NameGroupRecList, AllocError>
    ensures { IfOk result (λ list. list ≡ groups_of trans.now) }
{
    match trans {
        NameTrans::Entries(_) => Ok(OwnedList::from_vec(Vec::new(alloc))),
        NameTrans::Groups(groups) => groups.rec(alloc),
    }
}

/// Copies the rows of the type map, as many as there are type values.
pub fn copy_rows(alloc: Global, policy: &Policy<'_>) -> Result<SetList, AllocError>
    ensures { IfOk result (λ list. list ≡ values_of policy.now.labels.type_rows) }
{
    // It was accepted, and so each type value has a row.
    policy.is_accepted();
    let mut list = Vec::new(alloc);
    for i in 0..policy.type_count() {
        list.push(Set::from_view(alloc, &policy.row(i + 1))?)?;
    }
    Ok(OwnedList::from_vec(list))
}
