// The common and the classes.
ghost use Rattle.std.specs.Prelude.{◌≡◌, IfOk};
ghost use Rattle.pol_make.specs.MadeSymbols.{permission, file_permissions, process_permissions, process_constraints, made_commons, file_class, process_class, made_classes};

use crate::names::name;
use pol_classes::{ClassRec, ClassRecList};
use pol_commons::{CommonRec, CommonRecList, PermissionRec, PermissionRecList};
use pol_constraints::{ConstraintItem, ConstraintRec, ConstraintRecList};
use pol_cursor::OwnedList;
use std::alloc::{AllocError, Global};

/// The table of commons.
#[tactic(auto, unfolding(crate::specs::MadeSymbols::made_commons))]
pub fn make_commons(alloc: Global) -> Result<CommonRecList, AllocError>
    ensures { IfOk result (λ list. list ≡ made_commons) }
{
    let common = CommonRec {
        name: name(alloc, b"file")?,
        value: 1,
        nprim: 6,
        permissions: file_permissions(alloc)?,
    };
    Ok(OwnedList::from_vec(vec![in alloc; common]?))
}

/// The table of classes.
#[tactic(auto, unfolding(crate::specs::MadeSymbols::made_classes))]
pub fn make_classes(alloc: Global) -> Result<ClassRecList, AllocError>
    ensures { IfOk result (λ list. list ≡ made_classes) }
{
    let mut classes = Vec::new(alloc);
    classes.push(file_class(alloc, b"file", 1, b"entrypoint")?)?;
    classes.push(file_class(alloc, b"dir", 2, b"search")?)?;
    classes.push(process_class(alloc)?)?;
    Ok(OwnedList::from_vec(classes))
}

// A class of files with a permission of its own.
fn file_class(alloc: Global, text: &[u8], value: u32, own: &[u8]) -> Result<ClassRec, AllocError>
    ensures { IfOk result (λ made. made ≡ file_class text.now value own.now) }
{
    Ok(ClassRec {
        name: name(alloc, text)?,
        common: name(alloc, b"file")?,
        value,
        nprim: 7,
        permissions: OwnedList::from_vec(vec![in alloc; permission(alloc, own, 7)?]?),
        constraints: OwnedList::from_vec(Vec::new(alloc)),
        validatetrans: OwnedList::from_vec(Vec::new(alloc)),
        default_user: 0,
        default_role: 0,
        default_range: 0,
        default_type: 0,
    })
}

// The class of processes, which has no common.
fn process_class(alloc: Global) -> Result<ClassRec, AllocError>
    ensures { IfOk result (λ made. made ≡ process_class) }
{
    Ok(ClassRec {
        name: name(alloc, b"process")?,
        common: OwnedList::from_vec(Vec::new(alloc)),
        value: 3,
        nprim: 5,
        permissions: process_permissions(alloc)?,
        constraints: process_constraints(alloc)?,
        validatetrans: OwnedList::from_vec(Vec::new(alloc)),
        default_user: 0,
        default_role: 0,
        default_range: 0,
        default_type: 0,
    })
}

fn permission(alloc: Global, text: &[u8], value: u32) -> Result<PermissionRec, AllocError>
    ensures { IfOk result (λ made. made ≡ permission text.now value) }
{
    Ok(PermissionRec {
        name: name(alloc, text)?,
        value,
    })
}

#[tactic(auto, unfolding(crate::specs::MadeSymbols::file_permissions))]
fn file_permissions(alloc: Global) -> Result<PermissionRecList, AllocError>
    ensures { IfOk result (λ list. list ≡ file_permissions) }
{
    let mut permissions = Vec::new(alloc);
    permissions.push(permission(alloc, b"ioctl", 1)?)?;
    permissions.push(permission(alloc, b"read", 2)?)?;
    permissions.push(permission(alloc, b"write", 3)?)?;
    permissions.push(permission(alloc, b"getattr", 4)?)?;
    permissions.push(permission(alloc, b"append", 5)?)?;
    permissions.push(permission(alloc, b"execute", 6)?)?;
    Ok(OwnedList::from_vec(permissions))
}

#[tactic(auto, unfolding(crate::specs::MadeSymbols::process_permissions))]
fn process_permissions(alloc: Global) -> Result<PermissionRecList, AllocError>
    ensures { IfOk result (λ list. list ≡ process_permissions) }
{
    let mut permissions = Vec::new(alloc);
    permissions.push(permission(alloc, b"transition", 1)?)?;
    permissions.push(permission(alloc, b"setexec", 2)?)?;
    permissions.push(permission(alloc, b"dyntransition", 3)?)?;
    permissions.push(permission(alloc, b"setcurrent", 4)?)?;
    permissions.push(permission(alloc, b"signal", 5)?)?;
    Ok(OwnedList::from_vec(permissions))
}

// The constraint on transitions.
#[tactic(auto, unfolding(crate::specs::MadeSymbols::process_constraints))]
fn process_constraints(alloc: Global) -> Result<ConstraintRecList, AllocError>
    ensures { IfOk result (λ list. list ≡ process_constraints) }
{
    let same_user = ConstraintItem {
        kind: 4,
        attr: 1,
        op: 1,
        names: None,
        type_set: None,
    };
    let constraint = ConstraintRec {
        permissions: 1,
        items: OwnedList::from_vec(vec![in alloc; same_user]?),
    };
    Ok(OwnedList::from_vec(vec![in alloc; constraint]?))
}
