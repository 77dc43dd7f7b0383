// What the words after `sechecker` ask for.
ghost use Rattle.std.specs.Prelude.{◌≡◌, [], map, option_map};
ghost use Rattle.se_words.specs.Options.{named_view};
ghost use Rattle.se_words.specs.Word.{text_of};
ghost use Rattle.se_options.specs.Asked.{Says, asked_by};
ghost use Rattle.se_options.specs.CheckRequest.{check_by, check_in, check_view};

use crate::asked::{fitting_groups, missing};
use crate::{CheckRequest, WordsError};
use se_words::{Named, Word, positionals};
use std::alloc::Global;

// What the words after `sechecker` ask for. Two of them are positional, the policy and the list, and there are no options.
pub fn check_request<'w>(alloc: Global, words: &'w [Word]) -> Result<CheckRequest<'w>, WordsError>
    ensures { Says check_view result (asked_by [] 2 check_in (map text_of words.now)) }
{
    let groups = fitting_groups(alloc, &[], 2, words)?;
    let names = positionals(alloc, &groups)?;
    match check_by(&names) {
        Some(asks) => Ok(asks),
        None => Err(missing(words)),
    }
}

// What the positional words ask, if there are two.
fn check_by<'w>(names: &[Named<'w>]) -> Option<CheckRequest<'w>>
    ensures { option_map check_view result ≡ check_by (map named_view names.now) }
{
    match names {
        [policy, list, ..] => Some(CheckRequest {
            policy: *policy,
            list: *list,
        }),
        _ => None,
    }
}
