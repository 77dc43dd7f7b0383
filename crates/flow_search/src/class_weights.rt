// The weights of the permissions of a class.
ghost use Rattle.std.specs.Int.{bit_at};
ghost use Rattle.std.specs.Prelude.{◌≡◌, ◌≤◌, ◌<◌, ◌==◌, ◌++◌, IfOk, OnOk, map, max, if◌then◌else◌};
ghost use Rattle.perm_map.specs.PermissionMap.{weights_of};
ghost use Rattle.flow_search.specs.FlowWeights.{inwards, outwards, mapped};
ghost use Rattle.flow_search.specs.Inner.WeightTables.{AreReachBits, class_weights, greatest_into, greatest_out, is_in, weighed};

use crate::reach_bits::{ReachBits, with_bit};
use perm_map::{Direction, PermMap};
use pol_classes::ClassView;
use pol_commons::{PermissionList, PermissionView, inherited_from};
use pol_symbols::Symbols;
use std::alloc::{AllocError, Global};
use std::marker::Model;

/// A permission as a rule's mask has it: the place of its bit, from 0 on, and how strongly information flows by it, from the source of a
/// rule to its target and back. Each weight is 0 where it does not.
#[derive(Clone, Copy)]
pub struct PermissionWeight {
    pub place: u32,
    pub out: u8,
    pub into: u8,
}

/// The weights of the permissions of a class. Contracts see the list of them.
#[derive(Drop)]
pub struct ClassWeights {
    permissions: Vec<PermissionWeight>,
}

impl Model for ClassWeights {
    ghost use Rattle.std.specs.Prelude.{List};
    ghost use Rattle.flow_search.specs.declared.class_weights.PermissionWeight.{PermissionWeight};

    ghost Value = { List PermissionWeight };

    ghost view = { λ list. list.permissions.items };
}

/// How strongly information flows by a rule, from its source to its target and back. Each is 0 where it does not.
#[derive(Clone, Copy)]
pub struct RuleWeights {
    pub out: u8,
    pub into: u8,
}

impl ClassWeights {
    /// The permissions of a class, its own first.
    #[tactic(auto, unfolding(crate::specs::Inner::WeightTables::class_weights))]
    pub fn of_class(
        alloc: Global,
        symbols: &Symbols<'_>,
        map: &PermMap<'_>,
        class: &ClassView<'_>,
    ) -> Result<ClassWeights, AllocError>
        ensures { IfOk result (λ list. list ≡ class_weights (weights_of map.now) symbols.now class.now.value) }
    {
        let mut permissions = Vec::new(alloc);
        push_list(&mut permissions, map, class.name(), class.permissions())?;
        push_list(
            &mut permissions,
            map,
            class.name(),
            inherited_from(&symbols.commons, class.common()),
        )?;
        Ok(ClassWeights { permissions })
    }

    /// The greatest weights of the permissions that a mask has, each way.
    pub fn greatest(&self, mask: u32) -> RuleWeights
        ensures out { result.out ≡ greatest_out mask self.now }
        ensures into { result.into ≡ greatest_into mask self.now }
    {
        greatest_of(&self.permissions, mask)
    }

    /// The bits of the permissions whose weight reaches the least one, each way.
    pub fn reaching(&self, least: u8) -> ReachBits
        requires { 1 ≤ least }
        ensures { AreReachBits least self.now result }
    {
        bits_reaching(&self.permissions, least)
    }
}

// The weight of what a permission is mapped as, from the source of a rule to its target.
fn outwards(weight: Option<(Direction, u8)>) -> u8
    ensures { result ≡ mapped outwards weight }
{
    match weight {
        Some((Direction::Write, weight)) => weight,
        Some((Direction::Both, weight)) => weight,
        _ => 0,
    }
}

// The weight of what a permission is mapped as, from the target of a rule to its source.
fn inwards(weight: Option<(Direction, u8)>) -> u8
    ensures { result ≡ mapped inwards weight }
{
    match weight {
        Some((Direction::Read, weight)) => weight,
        Some((Direction::Both, weight)) => weight,
        _ => 0,
    }
}

// A permission of the class of a name, with its weights.
fn weighed(map: &PermMap<'_>, class: &[u8], permission: &PermissionView<'_>) -> PermissionWeight
    ensures { result ≡ weighed (weights_of map.now) class.now permission.now }
{
    let weight = map.weight(class, permission.name());
    PermissionWeight {
        place: permission.value() - 1,
        out: outwards(weight),
        into: inwards(weight),
    }
}

// Adds permissions of the class of a name.
fn push_list(
    weights: &mut Vec<PermissionWeight>,
    known: &PermMap<'_>,
    class: &[u8],
    list: PermissionList<'_>,
) -> Result<(), AllocError>
    ensures { OnOk result (weights.new.items ≡ weights.old.items ++ map (weighed (weights_of known.now) class.now) list.entry) }
{
    for permission in list {
        weights.push(weighed(known, class, &permission))?;
    }
    Ok(())
}

// Whether the bit of a place is set.
fn has_bit(mask: u32, place: u32) -> bool
    requires { place < 32 }
    ensures { result ≡ (bit_at mask place == 1) }
{
    (mask >> place) & 1 == 1
}

// Whether a mask has a permission.
#[tactic(auto, using(crate::proofs::Masks::past_mask))]
fn is_in(mask: u32, permission: PermissionWeight) -> bool
    ensures { result ≡ is_in mask permission }
{
    if permission.place < 32 {
        has_bit(mask, permission.place)
    } else {
        false
    }
}

// A weight, or the greater one of a permission that a mask has.
fn greater(weight: u8, has: bool, other: u8) -> u8
    ensures { result ≡ (if has then max weight other else weight) }
{
    if has { weight.max(other) } else { weight }
}

// The greatest weights of the permissions that a mask has.
#[tactic(auto, unfolding(crate::specs::Inner::WeightTables::greatest_out, crate::specs::Inner::WeightTables::greatest_into))]
fn greatest_of(permissions: &[PermissionWeight], mask: u32) -> RuleWeights
    ensures out { result.out ≡ greatest_out mask permissions.now }
    ensures into { result.into ≡ greatest_into mask permissions.now }
{
    let mut out = 0;
    let mut into = 0;
    for permission in permissions {
        let has = is_in(mask, *permission);
        out = greater(out, has, permission.out);
        into = greater(into, has, permission.into);
    }
    RuleWeights { out, into }
}

// The bits of the permissions whose weight reaches the least one, each way.
fn bits_reaching(permissions: &[PermissionWeight], least: u8) -> ReachBits
    requires { 1 ≤ least }
    ensures { AreReachBits least permissions.now result }
{
    let mut out = 0;
    let mut into = 0;
    for permission in permissions {
        out = with_bit(out, permission.place, least <= permission.out);
        into = with_bit(into, permission.place, least <= permission.into);
    }
    ReachBits { out, into }
}
