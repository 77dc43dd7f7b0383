// What the words after `seinfoflow` ask for.
ghost use Rattle.std.specs.Prelude.{◌≡◌, ◌≤◌, IfOk, length, map};
ghost use Rattle.se_words.specs.Options.{group_view, kind_view, named_view, row_view};
ghost use Rattle.se_words.specs.Word.{text_of};
ghost use Rattle.se_options.specs.Asked.{Says, asked_by};
ghost use Rattle.se_options.specs.FlowRequest.{flow_asks, flow_in, flow_options, flow_view, least_in, weight_kind};

use crate::asked::{fitting_groups, missing};
use crate::walk_options::{
    all_in, all_option, options_agree, policy_option, reverse_option, shortest_option,
    source_option, states_option, target_option,
};
use crate::window::{from_in, from_option, limit_in, limit_kind};
use crate::{FlowRequest, WordsError};
use se_words::{
    Group, Named, OptionRow, ValueKind, Word, given_number, given_states, given_value, is_given,
    positionals, valued,
};
use std::alloc::{AllocError, Global};

// What the words after `seinfoflow` ask for. Any number of them may be positional.
pub fn flow_request<'w>(alloc: Global, words: &'w [Word]) -> Result<FlowRequest<'w>, WordsError>
    ensures { Says flow_view result (asked_by flow_options (length words.now) flow_in (map text_of words.now)) }
{
    let groups = fitting_groups(alloc, &flow_options(), words.len() as u64, words)?;
    let Some(policy) = given_value(&groups, "--policy") else {
        return Err(missing(words));
    };
    let Some(map_file) = given_value(&groups, "--map") else {
        return Err(missing(words));
    };
    let Some(source) = given_value(&groups, "--source") else {
        return Err(missing(words));
    };
    if !options_agree(&groups) {
        return Err(missing(words));
    }
    Ok(flow_asks(alloc, policy, map_file, source, &groups)?)
}

// What groups of words ask of a policy, a map and a source.
fn flow_asks<'w>(
    alloc: Global,
    policy: Named<'w>,
    map_file: Named<'w>,
    source: Named<'w>,
    groups: &[Group<'w>],
) -> Result<FlowRequest<'w>, AllocError>
    ensures { IfOk result (λ request. flow_view request
        ≡ flow_asks (named_view policy.entry) (named_view map_file.entry) (named_view source.entry) (map group_view groups.now)) }
{
    Ok(FlowRequest {
        policy,
        map: map_file,
        source,
        target: given_value(groups, "--target"),
        shortest: is_given(groups, "--shortest_path"),
        all: all_in(groups),
        least: least_in(groups),
        reverse: is_given(groups, "--reverse"),
        excluded: positionals(alloc, groups)?,
        states: given_states(alloc, groups, "--bool-state")?,
        from: from_in(groups),
        limit: limit_in(groups, "--limit_flows"),
    })
}

// The least weight of a flow that is listed: 3, unless one is given.
fn least_in(groups: &[Group<'_>]) -> u8
    ensures weight { result ≡ least_in (map group_view groups.now) }
    ensures least { 1 ≤ result }
    ensures most { result ≤ 10 }
{
    match given_number(groups, "--min_weight", 1, 10) {
        Some(weight) => weight as u8,
        None => 3,
    }
}

// The value of the option that gives that weight.
fn weight_kind() -> ValueKind
    ensures { kind_view result ≡ weight_kind }
{
    ValueKind::Number { least: 1, most: 10 }
}

// The options of seinfoflow.
fn flow_options() -> [OptionRow; 11]
    ensures { map row_view result ≡ flow_options }
{
    [
        policy_option(),
        valued(Some("-m"), "--map", ValueKind::Text),
        source_option(),
        target_option(),
        shortest_option(),
        all_option(),
        valued(Some("-w"), "--min_weight", weight_kind()),
        reverse_option(),
        states_option(),
        valued(Some("-l"), "--limit_flows", limit_kind()),
        from_option(),
    ]
}
