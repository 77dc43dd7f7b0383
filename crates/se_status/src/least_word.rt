// The least number of the words that are refused.
ghost use Rattle.std.specs.Prelude.{◌≡◌, ◌≤◌, ℕ, List, [], Contains, MatchOption};
ghost use Rattle.std.specs.List.{All};
ghost use Rattle.se_status.specs.LeastWord.{least, least_of};

/// The least of two numbers that may be there.
pub fn least(first: Option<u64>, second: Option<u64>) -> Option<u64>
    ensures { result ≡ least first second }
{
    match (first, second) {
        (None, second) => second,
        (first, None) => first,
        (Some(first), Some(second)) => Some(first.min(second)),
    }
}

/// The least of some numbers is one of them, and none of them is less. There is none where there are no numbers.
#[tactic(auto, using(crate::proofs::LeastNumbers::least_is))]
pub fn least_is_least()
    ensures { (numbers : List ℕ) → MatchOption (least_of numbers) (numbers ≡ [])
        (λ least. Contains numbers least × All (λ number. least ≤ number) numbers) }
{}
