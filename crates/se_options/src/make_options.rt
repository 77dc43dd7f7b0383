// What the words after `make` ask for.
ghost use Rattle.std.specs.Prelude.{◌≡◌, ◌≤◌, ◌%◌, IfOk, IfSome, map};
ghost use Rattle.se_words.specs.Options.{group_view, row_view};
ghost use Rattle.se_words.specs.Word.{text_of};
ghost use Rattle.se_options.specs.Asked.{Says};
ghost use Rattle.se_options.specs.MakeRequest.{asked_types, counting, make_asked, make_groups, make_options, make_view, types_in};

use crate::asked::{fitting, missing};
use crate::{MakeRequest, WordsError};
use se_words::{
    Group, OptionRow, Word, first_positional, groups_of, is_given, number_within, switch,
};
use std::alloc::{AllocError, Global};

// What the words after `make` ask for. One of them is positional, the number of types.
pub fn make_request(alloc: Global, words: &[Word]) -> Result<MakeRequest, WordsError>
    ensures { Says make_view result (make_asked (map text_of words.now)) }
{
    let groups = fitting(make_groups(alloc, words)?)?;
    match asked_types(&groups) {
        Some(types) => Ok(MakeRequest {
            types,
            bytes: is_given(&groups, "--bytes"),
        }),
        None => Err(missing(words)),
    }
}

// The groups of the words after `make`.
fn make_groups<'w>(alloc: Global, words: &'w [Word]) -> Result<Vec<Group<'w>>, AllocError>
    ensures { IfOk result (λ groups. map group_view groups.items ≡ make_groups (map text_of words.now)) }
{
    let groups = groups_of(alloc, &make_options(), 1, words)?;
    counting_all(alloc, &groups)
}

// The groups, where a positional word that is no number of types does not fit.
fn counting_all<'w>(alloc: Global, groups: &[Group<'w>]) -> Result<Vec<Group<'w>>, AllocError>
    ensures { IfOk result (λ counted. map group_view counted.items ≡ map counting (map group_view groups.now)) }
{
    let mut counted = Vec::with_capacity(alloc, groups.len())?;
    for group in groups {
        counted.push(counting(*group))?;
    }
    Ok(counted)
}

// The group, where a positional word that is no number of types does not fit.
fn counting<'w>(group: Group<'w>) -> Group<'w>
    ensures { group_view result ≡ counting (group_view group.entry) }
{
    match group {
        Group::Positional(word) if types_in(word.text).is_none() => Group::Misfit(word.word),
        _ => group,
    }
}

// How many types the groups say.
fn asked_types(groups: &[Group<'_>]) -> Option<u32>
    ensures types { result ≡ asked_types (map group_view groups.now) }
    ensures least { IfSome result (λ types. 200 ≤ types) }
    ensures most { IfSome result (λ types. types ≤ 5000) }
    ensures twenties { IfSome result (λ types. types % 20 ≡ 0) }
{
    match first_positional(groups) {
        Some(word) => types_in(word.text),
        None => None,
    }
}

// The number of types that the text is: from 200 to 5,000, and a multiple of 20.
#[tactic(auto, unfolding(crate::specs::MakeRequest::types_in))]
fn types_in(text: &str) -> Option<u32>
    ensures types { result ≡ types_in text.now }
    ensures least { IfSome result (λ types. 200 ≤ types) }
    ensures most { IfSome result (λ types. types ≤ 5000) }
    ensures twenties { IfSome result (λ types. types % 20 ≡ 0) }
{
    match number_within(200, 5000, text) {
        Some(types) if types % 20 == 0 => Some(types as u32),
        _ => None,
    }
}

// The options of make.
#[tactic(auto, unfolding(crate::specs::MakeRequest::make_options))]
fn make_options() -> [OptionRow; 1]
    ensures { map row_view result ≡ make_options }
{
    [switch(None, "--bytes")]
}
