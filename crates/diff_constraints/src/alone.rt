//! The constraints that one of two policies has alone.

ghost use Rattle.std.specs.Prelude.{◌≡◌, true, IfOk, map, option_map, slice_get};
ghost use Rattle.std.specs.List.{filter_map};
ghost use Rattle.std.specs.Option.{option_and_then};
ghost use Rattle.keyed_lists.specs.Inner.PlacedEntries.{paired};
ghost use Rattle.diff_constraints.specs.StatedConstraints.{stated_cmp};
ghost use Rattle.diff_constraints.specs.ConstraintDifferences.{constraints_alone, same_key, sole_with};
ghost use Rattle.diff_constraints.specs.Inner.SolePlaces.{sole_at};

use crate::stated::Stated;
use crate::stated_order::{Compared, compare_keys};
use keyed_lists::{Places, pair_up};
use std::alloc::{AllocError, Global};
use std::marker::Model;

/// A constraint of one of two policies, of the second if it is new.
#[derive(Drop)]
pub(crate) struct Sole<'s, 'a> {
    pub(crate) is_new: bool,
    pub(crate) stated: &'s Stated<'a>,
}

impl<'s, 'a> Model for Sole<'s, 'a> {
    ghost use Rattle.diff_constraints.specs.ConstraintDifferences.{Sole as SoleConstraint};

    ghost Value = { SoleConstraint };

    ghost view = { λ s. record { is_new = s.is_new; stated = s.stated.now } };
}

/// Whether two constraints have one key.
pub(crate) fn same_key(sole: &Sole<'_, '_>, other: &Sole<'_, '_>) -> bool
    ensures { result ≡ same_key sole.now other.now }
{
    compare_keys(sole.stated, other.stated).is_eq()
}

/// The constraints that say what none of the other policy says, in their order.
pub(crate) fn constraints_alone<'s, 'a>(
    alloc: Global,
    first: &'s [Stated<'a>],
    second: &'s [Stated<'a>],
) -> Result<Vec<Sole<'s, 'a>>, AllocError>
    ensures { IfOk result (λ soles. soles.items ≡ constraints_alone first.now second.now) }
{
    let places = paired_constraints(alloc, first, second)?;
    soles_at(alloc, first, second, &places)
}

// The places of all constraints of two policies, in their order.
fn paired_constraints(
    alloc: Global,
    first: &[Stated<'_>],
    second: &[Stated<'_>],
) -> Result<Vec<Places>, AllocError>
    ensures { IfOk result (λ places. places.items ≡ paired stated_cmp (λ s. s) first.now second.now) }
{
    pair_up(alloc, compared(alloc, first)?, compared(alloc, second)?)
}

// Constraints, each as one that is compared.
fn compared<'s, 'a>(
    alloc: Global,
    stated: &'s [Stated<'a>],
) -> Result<Vec<Compared<'s, 'a>>, AllocError>
    ensures { IfOk result (λ all. all.items ≡ stated.now) }
{
    stated.iter().map(|one| Compared::new(one)).collect(alloc)
}

// The constraints at these places that one policy has alone.
fn soles_at<'s, 'a>(
    alloc: Global,
    first: &'s [Stated<'a>],
    second: &'s [Stated<'a>],
    places: &[Places],
) -> Result<Vec<Sole<'s, 'a>>, AllocError>
    ensures { IfOk result (λ soles. soles.items ≡ filter_map (sole_at first.now second.now) places.now) }
{
    let mut soles = Vec::new(alloc);
    for at in places {
        match sole_at(first, second, *at) {
            Some(sole) => soles.push(sole)?,
            None => {}
        }
    }
    Ok(soles)
}

// The constraint at these places, if one policy has it alone.
#[tactic(auto, unfolding(crate::specs::Inner::SolePlaces::sole_at))]
fn sole_at<'s, 'a>(
    first: &'s [Stated<'a>],
    second: &'s [Stated<'a>],
    places: Places,
) -> Option<Sole<'s, 'a>>
    ensures { result ≡ sole_at first.now second.now places }
{
    let old = stated_at(first, places.first);
    let new = stated_at(second, places.second);
    sole_with(old, new)
}

// The constraint at a place, where there is one.
fn stated_at<'s, 'a>(all: &'s [Stated<'a>], place: Option<usize>) -> Option<&'s Stated<'a>>
    ensures { option_map (λ stated. stated.now) result ≡ option_and_then (slice_get all.now) place }
{
    match place {
        Some(place) => all.get(place),
        None => None,
    }
}

// The constraint that one policy has alone.
fn sole_with<'s, 'a>(
    first: Option<&'s Stated<'a>>,
    second: Option<&'s Stated<'a>>,
) -> Option<Sole<'s, 'a>>
    ensures { result ≡ sole_with (option_map (λ stated. stated.now) first.entry) (option_map (λ stated. stated.now) second.entry) }
{
    match (first, second) {
        (Some(stated), None) => Some(Sole {
            is_new: false,
            stated,
        }),
        (None, Some(stated)) => Some(Sole {
            is_new: true,
            stated,
        }),
        _ => None,
    }
}
