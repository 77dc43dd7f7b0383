// The answer of seinfoflow about a policy and a permission map.
ghost use Rattle.text_rows.specs.declared.limits.TheConstants.{MAX_TEXT_BYTES};
ghost use Rattle.std.specs.Prelude.{◌≤◌, length};
ghost use Rattle.std.specs.List.{concat};
ghost use Rattle.se_items.specs.Paging.{page};
ghost use Rattle.se_items.specs.Writing.{Sends};
ghost use Rattle.se_status.specs.Conclusion.{Concludes};
ghost use Rattle.perm_map.specs.PermissionMap.{weights_of};
ghost use Rattle.se_options.specs.FlowRequest.{flow_view};
ghost use Rattle.se_flow.specs.FlowAnswer.{IsOfMap, flow_answer, flow_graph, is_flow_of, rules_of};
ghost use Rattle.se_flow.specs.FlowTexts.{flow_words};
ghost use Rattle.se_walks.specs.GraphAnswer.{excluded_in, graph_text, is_edge};
ghost use Rattle.se_walks.specs.GraphItems.{AreWithin, items_between};

use crate::flow_texts::FlowTexts;
use counted_rules::CountedRules;
use flow_search::FlowGraph;
use perm_map::{MapError, PermMap};
use pol_expand::type_map;
use pol_read::Policy;
use rule_text::RuleTexts;
use se_items::WriteEnd;
use se_options::FlowRequest;
use se_outside::Sink;
use se_status::{Status, status_written};
use se_walks::{Ends, ends_named, excluded_set, first_unknown, rules_asked, write_items};
use std::alloc::Global;

/// Answers what seinfoflow is asked of a policy and the permission map with these bytes.
#[tactic(auto, unfolding(crate::specs::FlowAnswer::flow_answer, se_walks::specs::GraphAnswer::graph_answer))]
pub fn answer_flow<S: Sink>(
    alloc: Global,
    policy: &Policy<'_>,
    bytes: &[u8],
    asks: &FlowRequest<'_>,
    out: &mut S,
) -> Status
    requires { length bytes.now ≤ MAX_TEXT_BYTES }
    ensures answers { Concludes (flow_answer (flow_view asks.now) policy.now bytes.now) (S.state out.old) (S.state out.new) result }
    ensures about { IsOfMap result }
{
    let map = match PermMap::read(alloc, bytes) {
        Ok(map) => map,
        Err(MapError::Fault(fault)) => return Status::BadMap(fault),
        Err(MapError::Memory) => return Status::Memory,
    };
    match first_unknown(
        policy,
        &asks.source,
        &asks.target,
        &asks.states,
        &asks.excluded,
    ) {
        Some(word) => Status::UnknownName(word),
        None => status_written(write_asked(alloc, policy, &map, asks, out)),
    }
}

// Writes the flows of the source that is named, or the walks to the target, by the rules that count.
#[tactic(auto, using(se_items::proofs::Wrotes::nothing_sent))]
fn write_asked<'q, S: Sink>(
    alloc: Global,
    policy: &'q Policy<'_>,
    map: &'q PermMap<'_>,
    asks: &FlowRequest<'_>,
    out: &mut S,
) -> Result<(), WriteEnd>
    ensures { Sends (S.state out.old) (S.state out.new) (graph_text (flow_words (weights_of map.now) (rules_of (flow_view asks.now) policy.now) asks.now.least)
        (is_flow_of (flow_view asks.now) (rules_of (flow_view asks.now) policy.now) (weights_of map.now)) (flow_graph (flow_view asks.now)) policy.now) result }
{
    let rules = rules_asked(alloc, policy, &asks.states)?;
    write_answer(alloc, rules, map, asks, out)
}

// Writes the flows of the source that is named, or the walks to the target.
fn write_answer<'q, S: Sink>(
    alloc: Global,
    rules: CountedRules<'q>,
    map: &'q PermMap<'_>,
    asks: &FlowRequest<'_>,
    out: &mut S,
) -> Result<(), WriteEnd>
    ensures { Sends (S.state out.old) (S.state out.new) (graph_text (flow_words (weights_of map.now) rules.entry asks.now.least)
        (is_flow_of (flow_view asks.now) rules.entry (weights_of map.now)) (flow_graph (flow_view asks.now)) rules.entry.policy) result }
{
    let policy = rules.policy();
    match ends_named(policy, &asks.source, &asks.target, asks.all, asks.reverse) {
        Some(ends) => write_between(alloc, rules, map, asks, ends, out),
        None => Ok(()),
    }
}

// Writes the flows of a type, or the walks to another.
#[tactic(auto, using(se_items::proofs::Wrotes::nothing_sent))]
fn write_between<'q, S: Sink>(
    alloc: Global,
    rules: CountedRules<'q>,
    map: &'q PermMap<'_>,
    asks: &FlowRequest<'_>,
    ends: Ends,
    out: &mut S,
) -> Result<(), WriteEnd>
    requires { AreWithin rules.policy.symbols.types.nprim ends }
    ensures { Sends (S.state out.old) (S.state out.new)
        (concat (page asks.now.from asks.now.limit (items_between (flow_words (weights_of map.now) rules.entry asks.now.least)
        (is_edge (is_flow_of (flow_view asks.now) rules.entry (weights_of map.now)) (excluded_in (flow_graph (flow_view asks.now)) rules.entry.policy) asks.now.reverse)
        rules.entry.policy (excluded_in (flow_graph (flow_view asks.now)) rules.entry.policy) ends))) result }
{
    let policy = rules.policy();
    let excluded = excluded_set(alloc, policy.symbols(), &asks.excluded)?;
    let types = type_map(alloc, policy)?;
    let graph = FlowGraph::new_under(
        alloc,
        rules,
        &types,
        map,
        asks.least,
        &excluded,
        asks.reverse,
    )?;
    let lines = RuleTexts::new(alloc, graph.policy())?;
    let texts = FlowTexts {
        graph: &graph,
        rules: &lines,
    };
    write_items(alloc, &graph, &texts, &excluded, ends, asks.window(), out)
}
