// What groups of words give.
ghost use Rattle.std.specs.Prelude.{◌≡◌, ◌≤◌, ◌++◌, IfOk, IfSome, OnOk, map, option_map};
ghost use Rattle.std.specs.Option.{option_to_list};
ghost use Rattle.se_words.specs.Given.{first_positional, given_number, given_value, is_given, last_value, positional_in, positionals, value_in};
ghost use Rattle.se_words.specs.Options.{group_view, named_view};

use crate::values::number_within;
use crate::{Group, Named};
use std::alloc::{AllocError, Global};

/// The value that the last of the groups with the option of that name gives it.
#[tactic(auto, unfolding(crate::specs::Given::last_value))]
pub fn last_value<'w>(groups: &[Group<'w>], option: &str) -> Option<Option<Named<'w>>>
    ensures { option_map (option_map named_view) result ≡ last_value option.now (map group_view groups.now) }
{
    let mut last = None;
    for group in groups {
        last = group.value_of(option).or(last);
    }
    last
}

/// Whether the option is given.
pub fn is_given(groups: &[Group<'_>], option: &str) -> bool
    ensures { result ≡ is_given option.now (map group_view groups.now) }
{
    last_value(groups, option).is_some()
}

/// The value of the last occurrence of the option, if it is given with one.
pub fn given_value<'w>(groups: &[Group<'w>], option: &str) -> Option<Named<'w>>
    ensures { option_map named_view result ≡ given_value option.now (map group_view groups.now) }
{
    match last_value(groups, option) {
        Some(value) => value,
        None => None,
    }
}

/// The number that the last occurrence of the option gives, if it is one from the least to the most.
pub fn given_number(groups: &[Group<'_>], option: &str, least: u64, most: u64) -> Option<u64>
    ensures number { result ≡ given_number least most option.now (map group_view groups.now) }
    ensures least { IfSome result (λ number. least ≤ number) }
    ensures most { IfSome result (λ number. number ≤ most) }
{
    match given_value(groups, option) {
        Some(value) => number_within(least, most, value.text),
        None => None,
    }
}

/// The first positional word.
#[tactic(auto, unfolding(crate::specs::Given::first_positional))]
pub fn first_positional<'w>(groups: &[Group<'w>]) -> Option<Named<'w>>
    ensures { option_map named_view result ≡ first_positional (map group_view groups.now) }
{
    for group in groups {
        if let Some(name) = group.positional() {
            return Some(name);
        }
    }
    None
}

/// The positional words, in their order.
pub fn positionals<'w>(alloc: Global, groups: &[Group<'w>]) -> Result<Vec<Named<'w>>, AllocError>
    ensures { IfOk result (λ names. map named_view names.items ≡ positionals (map group_view groups.now)) }
{
    let mut names = Vec::new(alloc);
    for group in groups {
        push_name(group.positional(), &mut names)?;
    }
    Ok(names)
}

// Adds the word, if there is one.
fn push_name<'w>(name: Option<Named<'w>>, names: &mut Vec<Named<'w>>) -> Result<(), AllocError>
    ensures { OnOk result (names.new.items ≡ names.old.items ++ option_to_list name.entry) }
{
    match name {
        Some(name) => Ok(names.push(name)?),
        None => Ok(()),
    }
}

impl<'w> Group<'w> {
    // The value that the group gives the option.
    fn value_of(&self, option: &str) -> Option<Option<Named<'w>>>
        ensures { option_map (option_map named_view) result ≡ value_in option.now (group_view self.now) }
    {
        match self {
            Group::Given { row, value } if row.name == option => Some(*value),
            _ => None,
        }
    }

    // The word, if it is positional.
    fn positional(&self) -> Option<Named<'w>>
        ensures { option_map named_view result ≡ positional_in (group_view self.now) }
    {
        match self {
            Group::Positional(name) => Some(*name),
            _ => None,
        }
    }
}
