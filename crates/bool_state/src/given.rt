//! States that are given for booleans in place of the stored ones.

ghost use Rattle.std.specs.Prelude.{◌≡◌};
ghost use Rattle.bool_state.specs.BooleanStates.{is_on, last_given};

use pol_datums::BooleanView;

/// A state that is given for a boolean.
#[derive(Clone, Copy, Debug, PartialEq, Eq)]
pub struct Given {
    /// The value of the boolean.
    pub value: u32,
    /// Whether it is true.
    pub on: bool,
}

/// Whether a boolean is true: by the last state that is given for it, and where none is by the stored one.
pub fn is_on(given: &[Given], boolean: &BooleanView<'_>) -> bool
    ensures { result ≡ is_on given.now boolean.now.value }
{
    match last_given(given, boolean.value()) {
        Some(on) => on,
        None => boolean.state() == 1,
    }
}

// The last state that is given for the boolean of a value.
fn last_given(given: &[Given], value: u32) -> Option<bool>
    ensures { result ≡ last_given given.now value }
{
    match given.iter().rev().find(|state| state.value == value) {
        Some(state) => Some(state.on),
        None => None,
    }
}
