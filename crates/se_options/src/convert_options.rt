// What the words after `seconvert` ask for.
ghost use Rattle.std.specs.Prelude.{◌≡◌, ◌≤◌, map};
ghost use Rattle.std.specs.Option.{ForSome};
ghost use Rattle.se_words.specs.Options.{group_view, kind_view, row_view};
ghost use Rattle.se_words.specs.Word.{text_of};
ghost use Rattle.se_options.specs.Asked.{Says, asked_by};
ghost use Rattle.se_options.specs.ConvertRequest.{convert_in, convert_options, convert_view, version_in, version_kind};

use crate::asked::{fitting_groups, missing};
use crate::{ConvertRequest, WordsError};
use se_words::{Group, OptionRow, ValueKind, Word, first_positional, given_number, valued};
use std::alloc::Global;

// What the words after `seconvert` ask for. One of them is positional, the policy.
pub fn convert_request<'w>(
    alloc: Global,
    words: &'w [Word],
) -> Result<ConvertRequest<'w>, WordsError>
    ensures { Says convert_view result (asked_by convert_options 1 convert_in (map text_of words.now)) }
{
    let groups = fitting_groups(alloc, &convert_options(), 1, words)?;
    let Some(policy) = first_positional(&groups) else {
        return Err(missing(words));
    };
    let Some(version) = version_in(&groups) else {
        return Err(missing(words));
    };
    Ok(ConvertRequest { policy, version })
}

// The version that is asked for.
fn version_in(groups: &[Group<'_>]) -> Option<u32>
    ensures version { result ≡ version_in (map group_view groups.now) }
    ensures least { ForSome result (λ version. 28 ≤ version) }
    ensures most { ForSome result (λ version. version ≤ 34) }
{
    match given_number(groups, "-c", 28, 34) {
        Some(version) => Some(version as u32),
        None => None,
    }
}

// The value of the option that gives the version.
fn version_kind() -> ValueKind
    ensures { kind_view result ≡ version_kind }
{
    ValueKind::Number {
        least: 28,
        most: 34,
    }
}

// The options of seconvert.
#[tactic(auto, unfolding(crate::specs::ConvertRequest::convert_options))]
fn convert_options() -> [OptionRow; 1]
    ensures { map row_view result ≡ convert_options }
{
    [valued(None, "-c", version_kind())]
}
