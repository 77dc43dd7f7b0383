// The words of a request that name nothing in a policy.
ghost use Rattle.std.specs.Prelude.{◌≡◌, map, option_map};
ghost use Rattle.se_words.specs.Options.{named_view};
ghost use Rattle.se_words.specs.States.{state_view};
ghost use Rattle.se_walks.specs.StatedRules.{first_unknown_name};
ghost use Rattle.se_walks.specs.TypeNames.{type_words};

use crate::stated_rules::unknown_state;
use crate::type_names::unknown_type;
use pol_read::Policy;
use se_status::least;
use se_words::{Named, State};

/// The least number of a word, of a source, a target and excluded types, that names no type, or of a state that names no boolean. It takes
/// no memory.
pub fn first_unknown(
    policy: &Policy<'_>,
    source: &Named<'_>,
    target: &Option<Named<'_>>,
    states: &Option<Vec<State<'_>>>,
    excluded: &[Named<'_>],
) -> Option<u64>
    ensures { result ≡ first_unknown_name policy.now (type_words (named_view source.now) (option_map named_view target.now) (map named_view excluded.now)) (option_map (λ states. map state_view states.items) states.now) }
{
    least(
        unknown_type(policy, source, target, excluded),
        unknown_state(policy.symbols(), states),
    )
}
