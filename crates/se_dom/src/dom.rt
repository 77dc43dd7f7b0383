// The answer of sedta about a policy.
ghost use Rattle.std.specs.Prelude.{◌≡◌};
ghost use Rattle.std.specs.List.{concat};
ghost use Rattle.dom_trans.specs.Transitions.{is_transition};
ghost use Rattle.se_items.specs.Paging.{page};
ghost use Rattle.se_items.specs.Writing.{Sends};
ghost use Rattle.se_status.specs.Conclusion.{Concludes, IsPlain};
ghost use Rattle.se_options.specs.DomRequest.{dom_view};
ghost use Rattle.se_dom.specs.DomAnswer.{dom_answer, dom_graph, dom_rules};
ghost use Rattle.se_dom.specs.DomTexts.{dom_words};
ghost use Rattle.se_walks.specs.GraphAnswer.{excluded_in, graph_text, is_edge};
ghost use Rattle.se_walks.specs.GraphItems.{AreWithin, items_between};

use crate::dom_texts::DomTexts;
use dom_trans::DomGraph;
use pol_expand::type_map;
use pol_read::Policy;
use rule_text::RuleTexts;
use se_items::WriteEnd;
use se_options::DomRequest;
use se_outside::Sink;
use se_status::{Status, status_written};
use se_walks::{Ends, ends_named, excluded_set, first_unknown, rules_asked, write_items};
use std::alloc::Global;

/// Answers what sedta is asked of a policy.
#[tactic(auto, unfolding(crate::specs::DomAnswer::dom_answer, se_walks::specs::GraphAnswer::graph_answer))]
pub fn answer_dom<S: Sink>(
    alloc: Global,
    policy: &Policy<'_>,
    asks: &DomRequest<'_>,
    out: &mut S,
) -> Status
    ensures answers { Concludes (dom_answer (dom_view asks.now) policy.now) (S.state out.old) (S.state out.new) result }
    ensures plain { IsPlain result }
{
    match first_unknown(
        policy,
        &asks.source,
        &asks.target,
        &asks.states,
        &asks.excluded,
    ) {
        Some(word) => Status::UnknownName(word),
        None => status_written(write_answer(alloc, policy, asks, out)),
    }
}

// Writes the transitions of the source that is named, or the walks to the target.
fn write_answer<S: Sink>(
    alloc: Global,
    policy: &Policy<'_>,
    asks: &DomRequest<'_>,
    out: &mut S,
) -> Result<(), WriteEnd>
    ensures { Sends (S.state out.old) (S.state out.new)
        (graph_text (dom_words (dom_rules (dom_view asks.now) policy.now)) (is_transition (dom_rules (dom_view asks.now) policy.now)) (dom_graph (dom_view asks.now)) policy.now) result }
{
    match ends_named(policy, &asks.source, &asks.target, asks.all, asks.reverse) {
        Some(ends) => write_between(alloc, policy, asks, ends, out),
        None => Ok(()),
    }
}

// Writes the transitions of a type by the rules that count, or the walks to another.
#[tactic(auto, using(se_items::proofs::Wrotes::nothing_sent))]
fn write_between<S: Sink>(
    alloc: Global,
    policy: &Policy<'_>,
    asks: &DomRequest<'_>,
    ends: Ends,
    out: &mut S,
) -> Result<(), WriteEnd>
    requires { AreWithin policy.now.symbols.types.nprim ends }
    ensures { Sends (S.state out.old) (S.state out.new)
        (concat (page asks.now.from asks.now.limit (items_between (dom_words (dom_rules (dom_view asks.now) policy.now))
        (is_edge (is_transition (dom_rules (dom_view asks.now) policy.now)) (excluded_in (dom_graph (dom_view asks.now)) policy.now) asks.now.reverse) policy.now
        (excluded_in (dom_graph (dom_view asks.now)) policy.now) ends))) result }
{
    let counted = rules_asked(alloc, policy, &asks.states)?;
    let excluded = excluded_set(alloc, policy.symbols(), &asks.excluded)?;
    let types = type_map(alloc, policy)?;
    let graph = DomGraph::new_under(alloc, counted, &types, &excluded, asks.reverse)?;
    let rules = RuleTexts::new(alloc, graph.policy())?;
    let texts = DomTexts {
        graph: &graph,
        rules: &rules,
    };
    write_items(alloc, &graph, &texts, &excluded, ends, asks.window(), out)
}
