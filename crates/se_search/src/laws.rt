//! What is true of the lines that are asked for.

ghost use Rattle.std.specs.Prelude.{◌≡◌, ◌+◌, ◌++◌, ℕ, Some, None};
ghost use Rattle.pol_file.specs.declared.Parts.{Parts};
ghost use Rattle.se_options.specs.SearchRequest.{SearchAsks};
ghost use Rattle.se_search.specs.SearchAnswer.{search_answer};

/// Some lines of a search, and then those after them, are the lines from the first of them on: lines of rules as lines of rules between
/// single types, since both are pages of a listing.
#[tactic(auto, using(crate::proofs::Resumed::answer_then))]
pub fn searches_resume()
    ensures { (asks : SearchAsks) (policy : Parts) (count : ℕ)
        → (search_answer (record asks { limit = Some count }) policy).text
        ++ (search_answer (record asks { from = asks.from + count; limit = None }) policy).text
        ≡ (search_answer (record asks { limit = None }) policy).text }
{}
