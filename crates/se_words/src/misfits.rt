// Which word does not fit.
ghost use Rattle.std.specs.Prelude.{◌≡◌, map};
ghost use Rattle.se_words.specs.Misfits.{first_misfit, fits, misfit_among, misfit_in, value_misfit};
ghost use Rattle.se_words.specs.Options.{group_view, kind_view, named_view, takes_view};

use crate::given::is_given;
use crate::values::{is_comma_list, is_state_list, number_within};
use crate::{Group, Named, Takes, ValueKind};

/// The number of the first word that does not fit: a group tells so, or the value of its option is not what that has to be.
#[tactic(auto, unfolding(crate::specs::Misfits::misfit_among))]
pub fn first_misfit(groups: &[Group<'_>]) -> Option<u64>
    ensures { result ≡ first_misfit (map group_view groups.now) }
{
    for group in groups {
        if let Some(number) = misfit_in(groups, group) {
            return Some(number);
        }
    }
    None
}

// The word of the group that does not fit.
fn misfit_in(groups: &[Group<'_>], group: &Group<'_>) -> Option<u64>
    ensures { result ≡ misfit_in (map group_view groups.now) (group_view group.now) }
{
    match group {
        Group::Positional(_) => None,
        Group::Given { value: None, .. } => None,
        Group::Given {
            row,
            value: Some(value),
        } => value_misfit(groups, row.takes, *value),
        Group::Misfit(number) => Some(*number),
    }
}

// The word of the value of an option that takes this, if it does not fit.
fn value_misfit(groups: &[Group<'_>], takes: Takes, value: Named<'_>) -> Option<u64>
    ensures { result ≡ value_misfit (map group_view groups.now) (takes_view takes) (named_view value.entry) }
{
    match takes {
        Takes::Nothing | Takes::OptionalName => None,
        Takes::Value(kind) => {
            if fits(groups, kind, value.text) {
                None
            } else {
                Some(value.word)
            }
        }
    }
}

// Whether the text is what the value of an option has to be.
fn fits(groups: &[Group<'_>], kind: ValueKind, text: &str) -> bool
    ensures { result ≡ fits (map group_view groups.now) (kind_view kind) text.now }
{
    match kind {
        ValueKind::Text => true,
        ValueKind::Number { least, most } => number_within(least, most, text).is_some(),
        ValueKind::CommaList => is_comma_list(text),
        ValueKind::CommaListUnless(option) => is_comma_list(text) || is_given(groups, option),
        ValueKind::States => is_state_list(text),
    }
}
