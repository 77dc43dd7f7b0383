// What sedta is asked.
ghost use Rattle.std.specs.Prelude.{◌≤◌};
ghost use Rattle.std.specs.Option.{ForSome};

use se_items::Window;
use se_words::{Named, State};

/// What `sedta` is asked of a policy: the transitions of a source, or walks of transitions from it to a
/// target.
#[derive(Debug, Drop)]
pub struct DomRequest<'w> {
    /// The policy's name.
    pub policy: Named<'w>,
    pub source: Named<'w>,
    /// With one of [`DomRequest::shortest`] and [`DomRequest::all`], and without [`DomRequest::reverse`].
    pub target: Option<Named<'w>>,
    /// All shortest walks to the target.
    pub shortest: bool,
    /// All walks to the target of at most so many steps that have no type twice, from 1 to 99.
    pub all: Option<u32>,
    /// The transitions into the source, in place of those out of it.
    pub reverse: bool,
    /// The types at which no transition begins or ends, in the order of words.
    pub excluded: Vec<Named<'w>>,
    /// Where booleans are stated, only the rules that count in the policy's states, with these in their place: a later one for
    /// one boolean in the place of an earlier one.
    pub states: Option<Vec<State<'w>>>,
    /// So many items are left out first.
    pub from: u64,
    /// At most so many items, 1 or more.
    pub limit: Option<u64>,
    pub ghost a_step: { ForSome all (λ steps. 1 ≤ steps) },
    pub ghost few_steps: { ForSome all (λ steps. steps ≤ 99) },
}

impl DomRequest<'_> {
    ghost use Rattle.std.specs.Prelude.{◌≡◌};

    /// Which items are asked for.
    pub fn window(&self) -> Window
        ensures { result ≡ record { from = self.now.from; limit = self.now.limit } }
    {
        Window {
            from: self.from,
            limit: self.limit,
        }
    }
}
