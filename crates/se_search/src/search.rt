// The answer of sesearch about a policy.
ghost use Rattle.std.specs.Prelude.{◌≡◌, IfOk, map};
ghost use Rattle.rule_query.specs.Queries.{IsQueryOf};
ghost use Rattle.se_status.specs.Conclusion.{Concludes, IsWritten, done};
ghost use Rattle.se_options.specs.SearchRequest.{search_view};
ghost use Rattle.se_items.specs.Writing.{Sends};
ghost use Rattle.rule_singles.specs.FoundSingles.{ends_of_rule};
ghost use Rattle.se_search.specs.SearchAnswer.{found_rules, rules_text, search_answer, search_text, singles_text};
ghost use Rattle.se_search.specs.SearchPatterns.{IsOfSearch, TriesPatterns, pattern_words, status_of};

use crate::rule_lines::RuleLines;
use crate::single_lines::SingleLines;
use pol_expand::type_map;
use pol_read::Policy;
use rule_listing::ListedTexts;
use rule_query::{Query, QueryError, resolve};
use rule_singles::SingleRules;
use rule_text::RuleTexts;
use se_items::{WriteEnd, write_pieces};
use se_options::SearchRequest;
use se_outside::{Patterns, Sink};
use se_status::{Status, status_written};
use std::alloc::{AllocError, Global};

/// Answers what sesearch is asked of a policy.
pub fn answer_search<P: Patterns, S: Sink>(
    alloc: Global,
    policy: &Policy<'_>,
    asks: &SearchRequest<'_>,
    patterns: &mut P,
    out: &mut S,
) -> Status
    ensures answers { Concludes (search_answer (search_view asks.now) policy.now)
        (S.state out.old) (S.state out.new)
        result }
    ensures about { IsOfSearch result }
    ensures patterns { TriesPatterns (pattern_words (search_view asks.now).criteria)
        (P.state patterns.old) (P.state patterns.new) result }
{
    match resolve(alloc, &asks.criteria, policy, patterns) {
        Ok(query) => write_found(alloc, policy, asks, &query, out),
        Err(error) => status_of(error),
    }
}

// How a run ends whose criteria were not looked up.
fn status_of(error: QueryError) -> Status
    ensures { result ≡ status_of error }
{
    match error {
        QueryError::UnknownName(word) => Status::UnknownName(word),
        QueryError::BadNumber(word) => Status::BadNumber(word),
        QueryError::BadPattern(word, kind) => Status::BadPattern(word, kind),
        QueryError::Memory => Status::Memory,
    }
}

// Writes the lines of the rules that meet a query, or of those between single types.
fn write_found<S: Sink>(
    alloc: Global,
    policy: &Policy<'_>,
    asks: &SearchRequest<'_>,
    query: &Query,
    out: &mut S,
) -> Status
    requires { IsQueryOf policy.now asks.now.criteria query.now }
    ensures writes { Concludes (done (search_text (search_view asks.now) policy.now))
        (S.state out.old) (S.state out.new)
        result }
    ensures plain { IsWritten result }
{
    if asks.singles {
        status_written(write_singles(alloc, policy, asks, query, out))
    } else {
        status_written(write_rules(alloc, policy, asks, query, out))
    }
}

// Writes the lines of the rules that meet a query.
#[tactic(auto, using(se_items::proofs::Wrotes::nothing_sent))]
fn write_rules<S: Sink>(
    alloc: Global,
    policy: &Policy<'_>,
    asks: &SearchRequest<'_>,
    query: &Query,
    out: &mut S,
) -> Result<(), WriteEnd>
    requires { IsQueryOf policy.now asks.now.criteria query.now }
    ensures { Sends (S.state out.old) (S.state out.new)
        (rules_text (search_view asks.now) policy.now) result }
{
    let window = asks.window();
    let numbers = query.least(alloc, policy, window.end())?;
    let texts = ListedTexts::new(alloc, policy)?;
    let mut lines = RuleLines::new(texts, window.of(&numbers));
    write_pieces(alloc, &mut lines, out)
}

// Writes the lines of the rules between single types.
#[tactic(auto, using(se_items::proofs::Wrotes::nothing_sent))]
fn write_singles<S: Sink>(
    alloc: Global,
    policy: &Policy<'_>,
    asks: &SearchRequest<'_>,
    query: &Query,
    out: &mut S,
) -> Result<(), WriteEnd>
    requires { IsQueryOf policy.now asks.now.criteria query.now }
    ensures { Sends (S.state out.old) (S.state out.new)
        (singles_text (search_view asks.now) policy.now) result }
{
    let rules = single_rules(alloc, policy, asks, query)?;
    let texts = RuleTexts::new(alloc, policy)?;
    let mut lines = SingleLines::new(&texts, rules.places(), asks.window());
    write_pieces(alloc, &mut lines, out)
}

// The rules that meet a query, in the order in which rules are listed, each with the types that are listed of its ends.
fn single_rules(
    alloc: Global,
    policy: &Policy<'_>,
    asks: &SearchRequest<'_>,
    query: &Query,
) -> Result<SingleRules, AllocError>
    requires { IsQueryOf policy.now asks.now.criteria query.now }
    ensures { IfOk result (λ rules. rules ≡ map (ends_of_rule policy.now asks.now.criteria) (found_rules (search_view asks.now) policy.now)) }
{
    let numbers = query.sorted(alloc, policy)?;
    let types = type_map(alloc, policy)?;
    SingleRules::of(alloc, policy, &types, &asks.criteria, query, &numbers)
}
