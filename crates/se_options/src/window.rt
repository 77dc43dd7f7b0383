// Which items of a listing are wanted.
ghost use Rattle.std.specs.Prelude.{◌≡◌, codes, map};
ghost use Rattle.se_words.specs.Options.{group_view, kind_view, row_view};
ghost use Rattle.se_options.specs.Window.{from_in, from_option, limit_in, limit_kind};

use se_items::MOST_ITEMS;
use se_words::{Group, OptionRow, ValueKind, given_number, valued};

// The value of an option that limits how many items are listed.
pub fn limit_kind() -> ValueKind
    ensures { kind_view result ≡ limit_kind }
{
    ValueKind::Number {
        least: 1,
        most: MOST_ITEMS,
    }
}

// The option that says after how many items the listing begins.
pub fn from_option() -> OptionRow
    ensures { row_view result ≡ from_option }
{
    let kind = ValueKind::Number {
        least: 0,
        most: MOST_ITEMS,
    };
    valued(None, "--from", kind)
}

// The limit that the option of that name gives.
pub fn limit_in(groups: &[Group<'_>], option: &str) -> Option<u64>
    ensures { result ≡ limit_in option.now (map group_view groups.now) }
{
    given_number(groups, option, 1, MOST_ITEMS)
}

// After how many items the listing begins.
pub fn from_in(groups: &[Group<'_>]) -> u64
    ensures { result ≡ from_in (map group_view groups.now) }
{
    given_number(groups, "--from", 0, MOST_ITEMS).unwrap_or(0)
}
