// The constraints of classes at another version.
ghost use Rattle.std.specs.Prelude.{◌≡◌, if◌then◌else◌, IfOk, Some, None, map};
ghost use Rattle.pol_constraints.specs.ConstraintRecord.{has_type_set};
ghost use Rattle.pol_versions.specs.Conversion.{class_at, constraint_at, item_at, type_set_of};

use pol_bitmap::Set;
use pol_classes::ClassRec;
use pol_constraints::codes::CEXPR_NAMES;
use pol_constraints::{ConstraintItem, ConstraintRec, TypeSet};
use pol_cursor::OwnedList;
use pol_fields::codes::POLICYDB_VERSION_CONSTRAINT_NAMES;
use std::alloc::{AllocError, Global};
use std::mem::replace;

/// The classes at a version.
pub fn classes_at(
    alloc: Global,
    classes: OwnedList<ClassRec>,
    version: u32,
) -> Result<OwnedList<ClassRec>, AllocError>
    ensures { IfOk result (λ changed. changed ≡ map (class_at version) classes) }
{
    let mut changed = Vec::with_capacity(alloc, classes.len())?;
    for class in classes.into_vec() {
        changed.push(class_at(alloc, class, version)?)?;
    }
    Ok(OwnedList::from_vec(changed))
}

fn class_at(alloc: Global, class: ClassRec, version: u32) -> Result<ClassRec, AllocError>
    ensures { IfOk result (λ changed. changed ≡ class_at version class) }
{
    let mut class = class;
    let constraints = replace(&mut class.constraints, OwnedList::from_vec(Vec::new(alloc)));
    class.constraints = constraints_at(alloc, constraints, version)?;
    let validatetrans = replace(
        &mut class.validatetrans,
        OwnedList::from_vec(Vec::new(alloc)),
    );
    class.validatetrans = constraints_at(alloc, validatetrans, version)?;
    Ok(class)
}

fn constraints_at(
    alloc: Global,
    constraints: OwnedList<ConstraintRec>,
    version: u32,
) -> Result<OwnedList<ConstraintRec>, AllocError>
    ensures { IfOk result (λ changed. changed ≡ map (constraint_at version) constraints) }
{
    let mut changed = Vec::with_capacity(alloc, constraints.len())?;
    for constraint in constraints.into_vec() {
        changed.push(constraint_at(alloc, constraint, version)?)?;
    }
    Ok(OwnedList::from_vec(changed))
}

fn constraint_at(
    alloc: Global,
    constraint: ConstraintRec,
    version: u32,
) -> Result<ConstraintRec, AllocError>
    ensures { IfOk result (λ changed. changed ≡ constraint_at version constraint) }
{
    let mut items = Vec::with_capacity(alloc, constraint.items.len())?;
    for item in constraint.items.into_vec() {
        items.push(item_at(alloc, item, version)?)?;
    }
    Ok(ConstraintRec {
        permissions: constraint.permissions,
        items: OwnedList::from_vec(items),
    })
}

fn item_at(alloc: Global, item: ConstraintItem, version: u32) -> Result<ConstraintItem, AllocError>
    ensures { IfOk result (λ changed. changed ≡ item_at version item) }
{
    let ConstraintItem {
        kind,
        attr,
        op,
        names,
        type_set,
    } = item;
    let type_set = type_set_if(alloc, has_type_set(version, kind), type_set)?;
    Ok(ConstraintItem {
        kind,
        attr,
        op,
        names,
        type_set,
    })
}

// The type set of an item that has one, or none.
fn type_set_if(
    alloc: Global,
    there: bool,
    type_set: Option<TypeSet>,
) -> Result<Option<TypeSet>, AllocError>
    ensures { IfOk result (λ changed. changed ≡ (if there then Some (type_set_of type_set) else None)) }
{
    if there {
        return Ok(Some(type_set_of(alloc, type_set)?));
    }
    Ok(None)
}

// Whether items of a kind have a type set.
fn has_type_set(version: u32, kind: u32) -> bool
    ensures { result ≡ has_type_set version kind }
{
    kind == CEXPR_NAMES && POLICYDB_VERSION_CONSTRAINT_NAMES <= version
}

// The type set that was there, or one that has nothing in it.
fn type_set_of(alloc: Global, type_set: Option<TypeSet>) -> Result<TypeSet, AllocError>
    ensures { IfOk result (λ set. set ≡ type_set_of type_set) }
{
    match type_set {
        Some(set) => Ok(set),
        None => Ok(TypeSet {
            types: Set::empty(alloc)?,
            negated: Set::empty(alloc)?,
            flags: 0,
        }),
    }
}
