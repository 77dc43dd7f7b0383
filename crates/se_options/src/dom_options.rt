// What the words after `sedta` ask for.
ghost use Rattle.std.specs.Prelude.{◌≡◌, IfOk, length, map};
ghost use Rattle.se_words.specs.Options.{group_view, named_view, row_view};
ghost use Rattle.se_words.specs.Word.{text_of};
ghost use Rattle.se_options.specs.Asked.{Says, asked_by};
ghost use Rattle.se_options.specs.DomRequest.{dom_asks, dom_in, dom_options, dom_view};

use crate::asked::{fitting_groups, missing};
use crate::walk_options::{
    all_in, all_option, options_agree, policy_option, reverse_option, shortest_option,
    source_option, states_option, target_option,
};
use crate::window::{from_in, from_option, limit_in, limit_kind};
use crate::{DomRequest, WordsError};
use se_words::{
    Group, Named, OptionRow, Word, given_states, given_value, is_given, positionals, valued,
};
use std::alloc::{AllocError, Global};

// What the words after `sedta` ask for. Any number of them may be positional.
pub fn dom_request<'w>(alloc: Global, words: &'w [Word]) -> Result<DomRequest<'w>, WordsError>
    ensures { Says dom_view result (asked_by dom_options (length words.now) dom_in (map text_of words.now)) }
{
    let groups = fitting_groups(alloc, &dom_options(), words.len() as u64, words)?;
    let Some(policy) = given_value(&groups, "--policy") else {
        return Err(missing(words));
    };
    let Some(source) = given_value(&groups, "--source") else {
        return Err(missing(words));
    };
    if !options_agree(&groups) {
        return Err(missing(words));
    }
    Ok(dom_asks(alloc, policy, source, &groups)?)
}

// What groups of words ask of a policy and a source.
fn dom_asks<'w>(
    alloc: Global,
    policy: Named<'w>,
    source: Named<'w>,
    groups: &[Group<'w>],
) -> Result<DomRequest<'w>, AllocError>
    ensures { IfOk result (λ request. dom_view request ≡ dom_asks (named_view policy.entry) (named_view source.entry) (map group_view groups.now)) }
{
    Ok(DomRequest {
        policy,
        source,
        target: given_value(groups, "--target"),
        shortest: is_given(groups, "--shortest_path"),
        all: all_in(groups),
        reverse: is_given(groups, "--reverse"),
        excluded: positionals(alloc, groups)?,
        states: given_states(alloc, groups, "--bool-state")?,
        from: from_in(groups),
        limit: limit_in(groups, "--limit_trans"),
    })
}

// The options of sedta.
#[tactic(auto, unfolding(crate::specs::DomRequest::dom_options))]
fn dom_options() -> [OptionRow; 9]
    ensures { map row_view result ≡ dom_options }
{
    [
        policy_option(),
        source_option(),
        target_option(),
        shortest_option(),
        all_option(),
        reverse_option(),
        states_option(),
        valued(Some("-l"), "--limit_trans", limit_kind()),
        from_option(),
    ]
}
