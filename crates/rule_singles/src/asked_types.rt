// The types of an expansion that a criterion asks for.
ghost use Rattle.std.specs.Prelude.{◌≡◌, IfOk, option_map};
ghost use Rattle.std.specs.List.{filter};
ghost use Rattle.pol_bitmap.specs.Nodes.{bits_of};
ghost use Rattle.rule_singles.specs.Inner.EndSets.{leaves, types_left};

use pol_bitmap::Set;
use rule_criteria::Criterion;
use std::alloc::{AllocError, Global};

/// The types that a criterion leaves of an expansion: those that meet it, or all where there is no set.
pub fn types_left(
    criterion: &Option<Criterion>,
    met: Option<&Set>,
) -> Result<Option<Set>, AllocError>
    ensures { IfOk result (λ left. left ≡ types_left criterion.now (option_map (λ set. set.now) met.entry)) }
{
    let Some(criterion) = criterion else {
        return Ok(None);
    };
    if criterion.mode.is_direct() {
        return Ok(None);
    }
    match met {
        Some(met) => Ok(Some(met.share()?)),
        None => Ok(None),
    }
}

/// Of a set those that are left.
pub fn cut(alloc: Global, set: Set, left: &Option<Set>) -> Result<Set, AllocError>
    ensures { IfOk result (λ cut. bits_of cut ≡ filter (leaves left.now) (bits_of set)) }
{
    match left {
        Some(left) => set.common(alloc, left),
        None => Ok(set),
    }
}
