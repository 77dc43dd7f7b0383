// The rules that count where states of booleans are stated.
ghost use Rattle.std.specs.Prelude.{◌≡◌, ◌++◌, ◌∷◌, [], IfOk, OnOk, Some, map, option_map};
ghost use Rattle.se_words.specs.States.{state_view};
ghost use Rattle.se_walks.specs.StatedRules.{boolean_named, first_unknown_state, given_states, rules_asked, unknown_state};

use bool_state::{BoolState, Given};
use counted_rules::CountedRules;
use pol_fields::TableKind;
use pol_read::Policy;
use pol_symbols::Symbols;
use se_status::least;
use se_words::State;
use std::alloc::{AllocError, Global};

/// The rules of a policy that count: all of them or, where states of booleans are stated, those that are enabled then.
#[tactic(auto, unfolding(crate::specs::StatedRules::rules_asked))]
pub fn rules_asked<'p>(
    alloc: Global,
    policy: &'p Policy<'p>,
    states: &Option<Vec<State<'_>>>,
) -> Result<CountedRules<'p>, AllocError>
    ensures { IfOk result (λ rules. rules ≡ rules_asked policy.now (option_map (λ states. map state_view states.items) states.now)) }
{
    match states {
        None => Ok(CountedRules::all(policy)),
        Some(states) => {
            let given = given_states(alloc, policy.symbols(), states)?;
            let state = BoolState::new(alloc, policy.symbols(), &given)?;
            CountedRules::under(alloc, policy, &state)
        }
    }
}

// The states that name booleans, by their values.
fn given_states(
    alloc: Global,
    symbols: &Symbols<'_>,
    states: &[State<'_>],
) -> Result<Vec<Given>, AllocError>
    ensures { IfOk result (λ given. given.items ≡ given_states symbols.now (map state_view states.now)) }
{
    let mut given = Vec::with_capacity(alloc, states.len())?;
    for state in states {
        push_given(symbols, state, &mut given)?;
    }
    Ok(given)
}

// Appends a state by the value of its boolean, if it names one.
fn push_given(
    symbols: &Symbols<'_>,
    state: &State<'_>,
    given: &mut Vec<Given>,
) -> Result<(), AllocError>
    ensures { OnOk result (given.new.items ≡ given.old.items ++ given_states symbols.now (state_view state.now ∷ [])) }
{
    match boolean_named(symbols, state) {
        None => Ok(()),
        Some(value) => Ok(given.push(Given {
            value,
            on: state.on,
        })?),
    }
}

// The value of the boolean that a state names.
fn boolean_named(symbols: &Symbols<'_>, state: &State<'_>) -> Option<u32>
    ensures { result ≡ boolean_named symbols.now (state_view state.now) }
{
    symbols.by_name(TableKind::Booleans, state.name.text.as_bytes())
}

/// The least number of a word of a state that names no boolean. It takes no memory.
pub fn unknown_state(symbols: &Symbols<'_>, states: &Option<Vec<State<'_>>>) -> Option<u64>
    ensures { result ≡ first_unknown_state symbols.now (option_map (λ states. map state_view states.items) states.now) }
{
    match states {
        None => None,
        Some(states) => unknown_among(symbols, states),
    }
}

// The least number of the word of a state that names no boolean.
fn unknown_among(symbols: &Symbols<'_>, states: &[State<'_>]) -> Option<u64>
    ensures { result ≡ first_unknown_state symbols.now (Some (map state_view states.now)) }
{
    let mut found = None;
    for state in states {
        found = least(found, unknown_word(symbols, state));
    }
    found
}

// The number of the word of a state, if it names no boolean.
fn unknown_word(symbols: &Symbols<'_>, state: &State<'_>) -> Option<u64>
    ensures { result ≡ unknown_state symbols.now (state_view state.now) }
{
    match boolean_named(symbols, state) {
        None => Some(state.name.word),
        Some(_) => None,
    }
}
