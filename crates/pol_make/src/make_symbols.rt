// The users, the booleans, the levels and the categories.
ghost use Rattle.std.specs.Prelude.{◌≡◌, ◌<◌, ◌≤◌, IfOk};
ghost use Rattle.pol_make.specs.MadeSymbols.{all_categories, bare_level, bare_range, whole_range, made_users, boolean, made_booleans, made_levels, made_category, categories_of};

use crate::names::{category_name, name};
use pol_bitmap::Set;
use pol_cursor::OwnedList;
use pol_datums::{
    BooleanRec, BooleanRecList, CategoryRec, CategoryRecList, SensitivityRec, SensitivityRecList,
};
use pol_mls::{LevelRec, RangeRec};
use pol_symbols::{UserRec, UserRecList};
use set_nodes::{first_bits, set_of};
use std::alloc::{AllocError, Global};

/// The table of users.
#[tactic(auto, unfolding(crate::specs::MadeSymbols::made_users))]
pub fn make_users(alloc: Global) -> Result<UserRecList, AllocError>
    ensures { IfOk result (λ list. list ≡ made_users) }
{
    let user = UserRec {
        value: 1,
        bounds: 0,
        name: name(alloc, b"system_u")?,
        roles: set_of(alloc, &[1])?,
        range: whole_range(alloc)?,
        level: bare_level(alloc)?,
    };
    Ok(OwnedList::from_vec(vec![in alloc; user]?))
}

// The level without categories.
fn bare_level(alloc: Global) -> Result<LevelRec, AllocError>
    ensures { IfOk result (λ level. level ≡ bare_level) }
{
    Ok(LevelRec {
        sens: 1,
        categories: set_of(alloc, &[])?,
    })
}

// The range from it up to the level of all categories.
fn whole_range(alloc: Global) -> Result<RangeRec, AllocError>
    ensures { IfOk result (λ range. range ≡ whole_range) }
{
    Ok(RangeRec {
        n: 2,
        low: 1,
        low_categories: set_of(alloc, &[])?,
        high: Some(LevelRec {
            sens: 1,
            categories: all_categories(alloc)?,
        }),
    })
}

/// The range of that level alone.
pub fn bare_range(alloc: Global) -> Result<RangeRec, AllocError>
    ensures { IfOk result (λ range. range ≡ bare_range) }
{
    Ok(RangeRec {
        n: 1,
        low: 1,
        low_categories: set_of(alloc, &[])?,
        high: None,
    })
}

fn all_categories(alloc: Global) -> Result<Set, AllocError>
    ensures { IfOk result (λ set. set ≡ all_categories) }
{
    first_bits(alloc, 1024)
}

/// The table of booleans.
#[tactic(auto, unfolding(crate::specs::MadeSymbols::made_booleans))]
pub fn make_booleans(alloc: Global) -> Result<BooleanRecList, AllocError>
    ensures { IfOk result (λ list. list ≡ made_booleans) }
{
    let first = boolean(alloc, b"b1", 1, 0)?;
    let second = boolean(alloc, b"b2", 2, 1)?;
    Ok(OwnedList::from_vec(vec![in alloc; first, second]?))
}

fn boolean(alloc: Global, text: &[u8], value: u32, state: u32) -> Result<BooleanRec, AllocError>
    ensures { IfOk result (λ made. made ≡ boolean text.now value state) }
{
    Ok(BooleanRec {
        value,
        state,
        name: name(alloc, text)?,
    })
}

/// The table of levels.
#[tactic(auto, unfolding(crate::specs::MadeSymbols::made_levels))]
pub fn make_levels(alloc: Global) -> Result<SensitivityRecList, AllocError>
    ensures { IfOk result (λ list. list ≡ made_levels) }
{
    let level = SensitivityRec {
        isalias: 0,
        name: name(alloc, b"s0")?,
        sens: 1,
        categories: all_categories(alloc)?,
    };
    Ok(OwnedList::from_vec(vec![in alloc; level]?))
}

/// A table of so many categories.
#[tactic(auto, unfolding(crate::specs::MadeSymbols::categories_of))]
pub fn make_categories(alloc: Global, count: u32) -> Result<CategoryRecList, AllocError>
    requires { count ≤ 1024 }
    ensures { IfOk result (λ list. list ≡ categories_of count) }
{
    let mut categories = Vec::new(alloc);
    for number in 0..count {
        categories.push(make_category(alloc, number)?)?;
    }
    Ok(OwnedList::from_vec(categories))
}

#[tactic(auto, unfolding(crate::specs::MadeSymbols::made_category))]
fn make_category(alloc: Global, number: u32) -> Result<CategoryRec, AllocError>
    requires { number < 1024 }
    ensures { IfOk result (λ made. made ≡ made_category number) }
{
    Ok(CategoryRec {
        value: number + 1,
        isalias: 0,
        name: category_name(alloc, number)?,
    })
}
