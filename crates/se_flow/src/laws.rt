//! What is true of the flows that are asked for.

ghost use Rattle.std.specs.Prelude.{◌≡◌, ◌+◌, ◌++◌, ℕ, List, Some, None};
ghost use Rattle.pol_file.specs.declared.Parts.{Parts};
ghost use Rattle.se_options.specs.FlowRequest.{FlowAsks};
ghost use Rattle.se_flow.specs.FlowAnswer.{flow_answer};

/// Some flows of a source, and then those after them, are the flows from the first of them on; and so are the walks to a target.
#[tactic(auto, using(crate::proofs::Resumed::answer_then))]
pub fn flows_resume()
    ensures { (asks : FlowAsks) (policy : Parts) (bytes : List ℕ) (count : ℕ)
        → (flow_answer (record asks { limit = Some count }) policy bytes).text
        ++ (flow_answer (record asks { from = asks.from + count; limit = None }) policy bytes).text
        ≡ (flow_answer (record asks { limit = None }) policy bytes).text }
{}
