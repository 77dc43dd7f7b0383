// What the value of an option says of booleans.
ghost use Rattle.std.specs.Prelude.{◌≡◌, ◌==◌, ◌++◌, IfOk, OnOk, map, option_map};
ghost use Rattle.std.specs.List.{slice_split};
ghost use Rattle.std.specs.Option.{option_to_list};
ghost use Rattle.se_words.specs.Options.{group_view, named_view};
ghost use Rattle.se_words.specs.States.{given_states, state_in, state_view, states_in};
ghost use Rattle.se_words.specs.Values.{is_comma};

use crate::given::given_value;
use crate::values::name_before;
use crate::{Group, Named};
use std::alloc::{AllocError, Global};

/// A boolean is on or off.
#[derive(Clone, Copy, Debug)]
pub struct State<'w> {
    /// The boolean's name, and the word of the value that has it.
    pub name: Named<'w>,
    pub on: bool,
}

/// The states that the last occurrence of the option gives, if it is given with a value. An element that is no state is left out;
/// where all words fit, there is none.
pub fn given_states<'w>(
    alloc: Global,
    groups: &[Group<'w>],
    option: &str,
) -> Result<Option<Vec<State<'w>>>, AllocError>
    ensures { IfOk result (λ given. option_map (λ states. map state_view states.items) given ≡ given_states option.now (map group_view groups.now)) }
{
    match given_value(groups, option) {
        Some(value) => Ok(Some(states_in(alloc, value)?)),
        None => Ok(None),
    }
}

// The states that the value says, in the order of its elements.
#[tactic(auto, unfolding(crate::specs::States::states_in))]
fn states_in<'w>(alloc: Global, value: Named<'w>) -> Result<Vec<State<'w>>, AllocError>
    ensures { IfOk result (λ states. map state_view states.items ≡ states_in (named_view value.entry)) }
{
    let elements = elements_of(alloc, value.text)?;
    let mut states = Vec::new(alloc);
    for element in &elements {
        push_state(state_in(value.word, element), &mut states)?;
    }
    Ok(states)
}

// The elements of a list that is parted by commas.
fn elements_of<'w>(alloc: Global, text: &'w str) -> Result<Vec<&'w str>, AllocError>
    ensures { IfOk result (λ elements. map (λ element. element.now) elements.items ≡ slice_split is_comma text.now) }
{
    text.split(',').collect(alloc)
}

// Adds the state, if there is one.
fn push_state<'w>(state: Option<State<'w>>, states: &mut Vec<State<'w>>) -> Result<(), AllocError>
    ensures { OnOk result (states.new.items ≡ states.old.items ++ option_to_list state.entry) }
{
    match state {
        Some(state) => Ok(states.push(state)?),
        None => Ok(()),
    }
}

// The state that the element says.
#[tactic(auto, unfolding(crate::specs::States::state_in))]
fn state_in<'w>(word: u64, element: &'w str) -> Option<State<'w>>
    ensures { option_map state_view result ≡ state_in word element.now }
{
    match (name_before(element, "=on"), name_before(element, "=off")) {
        (Some(text), _) => Some(State {
            name: Named { text, word },
            on: true,
        }),
        (None, Some(text)) => Some(State {
            name: Named { text, word },
            on: false,
        }),
        (None, None) => None,
    }
}
