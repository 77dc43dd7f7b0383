// Names that a policy does not have.
ghost use Rattle.std.specs.Prelude.{◌≡◌, Bool, map};
ghost use Rattle.se_options.specs.InfoRequest.{wanted_view};
ghost use Rattle.se_info.specs.InfoAnswer.{first_unknown, unknown_in};

use info_query::name_is_known;
use pol_read::Policy;
use se_options::Wanted;
use se_status::least;

/// The least number of a word with a name that is unknown, whatever lines are wanted. It takes no memory.
pub fn first_unknown(policy: &Policy<'_>, listings: &[Wanted]) -> Option<u64>
    ensures { (expand : Bool) → result ≡ first_unknown policy.now expand (map wanted_view listings.now) }
{
    let mut found = None;
    for wanted in listings {
        found = least(found, unknown_in(policy, wanted));
    }
    found
}

// The number of the word with the name, where that is unknown, whatever lines are wanted.
#[tactic(auto, unfolding(crate::specs::InfoAnswer::unknown_in))]
fn unknown_in(policy: &Policy<'_>, wanted: &Wanted) -> Option<u64>
    ensures { (expand : Bool) → result ≡ unknown_in policy.now expand (wanted_view wanted.now) }
{
    match wanted.name {
        Some(name) if !name_is_known(policy, wanted.listing, name.text.as_bytes()) => {
            Some(name.word)
        }
        _ => None,
    }
}
