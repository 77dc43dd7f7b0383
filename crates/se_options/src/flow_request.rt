// What seinfoflow is asked.
ghost use Rattle.std.specs.Prelude.{◌≤◌};
ghost use Rattle.std.specs.Option.{ForSome};

use se_items::Window;
use se_words::{Named, State};

/// What `seinfoflow` is asked of a policy and a permission map: the flows of a source, or walks of flows from it to a target.
#[derive(Debug, Drop)]
pub struct FlowRequest<'w> {
    /// The policy's name.
    pub policy: Named<'w>,
    /// The map's name.
    pub map: Named<'w>,
    pub source: Named<'w>,
    /// With one of [`FlowRequest::shortest`] and [`FlowRequest::all`], and without [`FlowRequest::reverse`].
    pub target: Option<Named<'w>>,
    /// All shortest walks to the target.
    pub shortest: bool,
    /// All walks to the target of at most so many steps that have no type twice, from 1 to 99.
    pub all: Option<u32>,
    /// The least weight of a flow, from 1 to 10.
    pub least: u8,
    /// The flows into the source, in place of those out of it.
    pub reverse: bool,
    /// The types at which no flow begins or ends, in the order of words.
    pub excluded: Vec<Named<'w>>,
    /// Where booleans are stated, only the rules that count in the policy's states, with these in their place: a later one for
    /// one boolean in the place of an earlier one.
    pub states: Option<Vec<State<'w>>>,
    /// So many items are left out first.
    pub from: u64,
    /// At most so many items, 1 or more.
    pub limit: Option<u64>,
    pub ghost at_least_one: { 1 ≤ least },
    pub ghost at_most_ten: { least ≤ 10 },
    pub ghost a_step: { ForSome all (λ steps. 1 ≤ steps) },
    pub ghost few_steps: { ForSome all (λ steps. steps ≤ 99) },
}

impl FlowRequest<'_> {
    ghost use Rattle.std.specs.Prelude.{◌≡◌};

    /// Which items are asked for.
    pub fn window(&self) -> Window
        ensures { result ≡ record { from = self.now.from; limit = self.now.limit } }
    {
        Window {
            from: self.from,
            limit: self.limit,
        }
    }
}
