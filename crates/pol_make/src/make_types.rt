// The roles and the types.
ghost use Rattle.std.specs.Prelude.{◌≡◌, ◌≤◌, ◌<◌, ◌++◌, IfOk, OnOk, map};
ghost use Rattle.std.specs.List.{range_with_len};
ghost use Rattle.pol_make.specs.MadeSymbols.{attribute_count, role, made_roles, made_type, made_attribute, made_types};

use crate::names::{attribute_name, name, type_name};
use pol_bitmap::Set;
use pol_cursor::OwnedList;
use pol_datums::{RoleRec, RoleRecList, TypeRec, TypeRecList};
use set_nodes::{first_bits, set_of};
use std::alloc::{AllocError, Global};

/// The table of roles.
#[tactic(auto, unfolding(crate::specs::MadeSymbols::made_roles))]
pub fn make_roles(alloc: Global, n: u32) -> Result<RoleRecList, AllocError>
    ensures { IfOk result (λ list. list ≡ made_roles n) }
{
    let object = role(
        alloc,
        b"object_r",
        1,
        set_of(alloc, &[0])?,
        set_of(alloc, &[])?,
    )?;
    let system = role(
        alloc,
        b"system_r",
        2,
        set_of(alloc, &[1])?,
        first_bits(alloc, n)?,
    )?;
    Ok(OwnedList::from_vec(vec![in alloc; object, system]?))
}

fn role(
    alloc: Global,
    text: &[u8],
    value: u32,
    dominates: Set,
    types: Set,
) -> Result<RoleRec, AllocError>
    ensures { IfOk result (λ made. made ≡ role text.now value dominates types) }
{
    Ok(RoleRec {
        value,
        bounds: 0,
        name: name(alloc, text)?,
        dominates,
        types,
    })
}

/// The table of types and attributes.
#[tactic(auto, unfolding(crate::specs::MadeSymbols::made_types))]
pub fn make_types(alloc: Global, n: u32) -> Result<TypeRecList, AllocError>
    requires { n ≤ 5000 }
    ensures { IfOk result (λ list. list ≡ made_types n) }
{
    let mut types = Vec::new(alloc);
    push_types(alloc, &mut types, n)?;
    push_attributes(alloc, &mut types, n)?;
    Ok(OwnedList::from_vec(types))
}

fn push_types(alloc: Global, types: &mut Vec<TypeRec>, n: u32) -> Result<(), AllocError>
    requires { n ≤ 5000 }
    ensures { OnOk result (types.new.items ≡ types.old.items ++ map made_type (range_with_len 1 n)) }
{
    for i in 0..n {
        types.push(make_type(alloc, i + 1)?)?;
    }
    Ok(())
}

#[tactic(auto, unfolding(crate::specs::MadeSymbols::made_type))]
fn make_type(alloc: Global, number: u32) -> Result<TypeRec, AllocError>
    ensures { IfOk result (λ made. made ≡ made_type number) }
{
    Ok(TypeRec {
        value: number,
        properties: 1,
        bounds: 0,
        name: type_name(alloc, number)?,
    })
}

fn push_attributes(alloc: Global, types: &mut Vec<TypeRec>, n: u32) -> Result<(), AllocError>
    requires { n ≤ 5000 }
    ensures { OnOk result (types.new.items ≡ types.old.items ++ map (made_attribute n) (range_with_len 1 (attribute_count n))) }
{
    for i in 0..n / 20 {
        types.push(make_attribute(alloc, n, i + 1)?)?;
    }
    Ok(())
}

#[tactic(auto, unfolding(crate::specs::MadeSymbols::made_attribute))]
fn make_attribute(alloc: Global, n: u32, number: u32) -> Result<TypeRec, AllocError>
    requires n { n ≤ 5000 }
    requires number { number ≤ 5000 }
    ensures { IfOk result (λ made. made ≡ made_attribute n number) }
{
    Ok(TypeRec {
        value: n + number,
        properties: 3,
        bounds: 0,
        name: attribute_name(alloc, number)?,
    })
}
