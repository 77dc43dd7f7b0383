//! What is true of the items that are asked for.

ghost use Rattle.std.specs.Prelude.{◌≡◌, ◌+◌, ◌++◌, ℕ, List, Some, None};
ghost use Rattle.se_items.specs.Paging.{page};

/// Some items of a listing, and then those after them, are the items from the first of them on.
#[tactic(auto, using(crate::proofs::Resuming::page_then))]
pub fn pages_resume()
    ensures { (from count : ℕ) (items : List (List ℕ))
        → page from (Some count) items ++ page (from + count) None items ≡ page from None items }
{}
