// What the words of sedta and of seinfoflow share.
ghost use Rattle.std.specs.Prelude.{◌≡◌, ◌≤◌, map};
ghost use Rattle.std.specs.Option.{ForSome};
ghost use Rattle.se_words.specs.Options.{group_view, kind_view, row_view};
ghost use Rattle.se_options.specs.WalkOptions.{all_in, all_option, options_agree, policy_option, reverse_option, shortest_option, source_option, states_option, steps_kind, target_option};

use se_words::{Group, OptionRow, ValueKind, given_number, is_given, switch, valued};

pub fn policy_option() -> OptionRow
    ensures { row_view result ≡ policy_option }
{
    valued(Some("-p"), "--policy", ValueKind::Text)
}

pub fn source_option() -> OptionRow
    ensures { row_view result ≡ source_option }
{
    valued(Some("-s"), "--source", ValueKind::Text)
}

pub fn target_option() -> OptionRow
    ensures { row_view result ≡ target_option }
{
    valued(Some("-t"), "--target", ValueKind::Text)
}

pub fn shortest_option() -> OptionRow
    ensures { row_view result ≡ shortest_option }
{
    switch(Some("-S"), "--shortest_path")
}

pub fn all_option() -> OptionRow
    ensures { row_view result ≡ all_option }
{
    valued(None, "-A", steps_kind())
}

// The value of the option that gives the most steps of a walk.
fn steps_kind() -> ValueKind
    ensures { kind_view result ≡ steps_kind }
{
    ValueKind::Number { least: 1, most: 99 }
}

pub fn reverse_option() -> OptionRow
    ensures { row_view result ≡ reverse_option }
{
    switch(Some("-r"), "--reverse")
}

pub fn states_option() -> OptionRow
    ensures { row_view result ≡ states_option }
{
    valued(None, "--bool-state", ValueKind::States)
}

// The most steps of a walk, where all walks up to that are asked for.
pub fn all_in(groups: &[Group<'_>]) -> Option<u32>
    ensures most { result ≡ all_in (map group_view groups.now) }
    ensures low { ForSome result (λ steps. 1 ≤ steps) }
    ensures high { ForSome result (λ steps. steps ≤ 99) }
{
    match given_number(groups, "-A", 1, 99) {
        Some(steps) => Some(steps as u32),
        None => None,
    }
}

// Whether a target has exactly one of `-S` and `-A` beside it, and no `-r`, and neither of the two is there without a target.
pub fn options_agree(groups: &[Group<'_>]) -> bool
    ensures { result ≡ options_agree (map group_view groups.now) }
{
    match (
        is_given(groups, "--target"),
        is_given(groups, "--shortest_path"),
        is_given(groups, "-A"),
    ) {
        (true, true, false) | (true, false, true) => !is_given(groups, "--reverse"),
        (false, false, false) => true,
        _ => false,
    }
}
