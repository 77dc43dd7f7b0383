//! What is true of the transitions that are asked for.

ghost use Rattle.std.specs.Prelude.{◌≡◌, ◌+◌, ◌++◌, ℕ, Some, None};
ghost use Rattle.pol_file.specs.declared.Parts.{Parts};
ghost use Rattle.se_options.specs.DomRequest.{DomAsks};
ghost use Rattle.se_dom.specs.DomAnswer.{dom_answer};

/// Some transitions of a source, and then those after them, are the transitions from the first of them on; and so are the walks to a
/// target.
#[tactic(auto, using(crate::proofs::Resumed::answer_then))]
pub fn transitions_resume()
    ensures { (asks : DomAsks) (policy : Parts) (count : ℕ)
        → (dom_answer (record asks { limit = Some count }) policy).text
        ++ (dom_answer (record asks { from = asks.from + count; limit = None }) policy).text
        ≡ (dom_answer (record asks { limit = None }) policy).text }
{}
