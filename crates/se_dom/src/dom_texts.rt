// How sedta writes transitions.
ghost use Rattle.std.specs.Prelude.{◌≡◌, ◌++◌, OnOk};
ghost use Rattle.se_dom.specs.DomTexts.{transition_text};

use crate::reason_texts::push_reasons;
use dom_trans::DomGraph;
use pol_symbols::Symbols;
use rule_text::RuleTexts;
use se_walks::EdgeTexts;
use std::alloc::AllocError;

/// The texts of the transitions of a graph.
#[derive(Drop)]
pub struct DomTexts<'g, 'p> {
    pub graph: &'g DomGraph<'p>,
    /// The texts of the rules of its policy.
    pub rules: &'g RuleTexts<'p, 'p>,
    ghost same: { rules.now ≡ graph.now.rules.policy },
}

impl EdgeTexts for DomTexts<'_, '_> {
    ghost use Rattle.se_dom.specs.DomTexts.{dom_words};

    ghost words = { λ t. dom_words t.graph.now.rules };

    #[tactic(auto, unfolding(crate::specs::DomTexts::dom_words))]
    fn word(&self) -> &'static [u8] {
        b"Transition"
    }

    #[tactic(auto, unfolding(crate::specs::DomTexts::dom_words))]
    fn symbols(&self) -> &Symbols<'_> {
        self.graph.policy().symbols()
    }

    #[tactic(auto, unfolding(crate::specs::DomTexts::dom_words))]
    fn push_behind(
        &self,
        indent: &[u8],
        from: u32,
        to: u32,
        buffer: &mut Vec<u8>,
    ) -> Result<(), AllocError> {
        push_transition(self.graph, self.rules, indent, from, to, buffer)
    }
}

// Adds the rules behind a transition.
#[tactic(auto, unfolding(crate::specs::DomTexts::transition_text))]
fn push_transition(
    graph: &DomGraph<'_>,
    rules: &RuleTexts<'_, '_>,
    indent: &[u8],
    from: u32,
    to: u32,
    buffer: &mut Vec<u8>,
) -> Result<(), AllocError>
    requires { rules.now ≡ graph.now.rules.policy }
    ensures { OnOk result (buffer.new.items ≡ buffer.old.items ++ transition_text graph.now.rules indent.now from to) }
{
    let reasons = graph.reasons(*buffer.allocator(), from, to)?;
    buffer.extend_from_slice(b"\n")?;
    push_reasons(rules, graph.policy().symbols(), indent, &reasons, buffer)
}
