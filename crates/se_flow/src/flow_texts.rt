// How seinfoflow writes flows.
ghost use Rattle.std.specs.Prelude.{◌≡◌, ◌<◌, ◌++◌, OnOk, length};
ghost use Rattle.std.specs.List.{flat_map};
ghost use Rattle.pol_read.specs.StoredRules.{stored_rules};
ghost use Rattle.rule_order.specs.ListedOrder.{AreRules};
ghost use Rattle.perm_map.specs.PermissionMap.{weights_of};
ghost use Rattle.se_flow.specs.FlowTexts.{flow_text, rule_line};

use flow_search::FlowGraph;
use pol_symbols::Symbols;
use pol_texts::push_decimal;
use rule_text::RuleTexts;
use se_walks::EdgeTexts;
use std::alloc::AllocError;

/// The texts of the flows of a graph, with those of the rules of its policy.
#[derive(Drop)]
pub struct FlowTexts<'g, 'p, 'a> {
    pub graph: &'g FlowGraph<'p>,
    pub rules: &'g RuleTexts<'p, 'a>,
    ghost of_policy: { rules.now ≡ graph.now.rules.policy },
}

impl EdgeTexts for FlowTexts<'_, '_, '_> {
    ghost use Rattle.se_flow.specs.FlowTexts.{flow_words};

    ghost words = { λ t. flow_words (weights_of t.graph.now.entries) t.graph.now.rules t.graph.now.least };

    #[tactic(auto, unfolding(crate::specs::FlowTexts::flow_words))]
    fn word(&self) -> &'static [u8] {
        b"Flow"
    }

    #[tactic(auto, unfolding(crate::specs::FlowTexts::flow_words))]
    fn symbols(&self) -> &Symbols<'_> {
        self.graph.policy().symbols()
    }

    #[tactic(auto, unfolding(crate::specs::FlowTexts::flow_words))]
    fn push_behind(
        &self,
        indent: &[u8],
        from: u32,
        to: u32,
        buffer: &mut Vec<u8>,
    ) -> Result<(), AllocError> {
        push_flow(self.graph, self.rules, indent, from, to, buffer)
    }
}

// Adds the weight of a flow, and the rules that give it.
#[tactic(auto, unfolding(crate::specs::FlowTexts::flow_text))]
fn push_flow(
    graph: &FlowGraph<'_>,
    texts: &RuleTexts<'_, '_>,
    indent: &[u8],
    from: u32,
    to: u32,
    buffer: &mut Vec<u8>,
) -> Result<(), AllocError>
    requires { texts.now ≡ graph.now.rules.policy }
    ensures { OnOk result (buffer.new.items ≡ buffer.old.items ++ flow_text (weights_of graph.now.entries) graph.now.rules graph.now.least indent.now from to) }
{
    let rules = graph.rules(*buffer.allocator(), from, to)?;
    buffer.extend_from_slice(b", weight ")?;
    push_decimal(buffer, u64::from(graph.weight(&rules, from, to)))?;
    buffer.extend_from_slice(b"\n")?;
    push_rules(texts, indent, &rules, buffer)
}

// Adds the lines of rules.
fn push_rules(
    texts: &RuleTexts<'_, '_>,
    indent: &[u8],
    numbers: &[u32],
    buffer: &mut Vec<u8>,
) -> Result<(), AllocError>
    requires { AreRules texts.now numbers.now }
    ensures { OnOk result (buffer.new.items ≡ buffer.old.items ++ flat_map (rule_line texts.now indent.now) numbers.now) }
{
    for number in numbers {
        push_line(texts, indent, *number, buffer)?;
    }
    Ok(())
}

// Adds the line of a rule.
#[tactic(auto, unfolding(crate::specs::FlowTexts::rule_line))]
fn push_line(
    texts: &RuleTexts<'_, '_>,
    indent: &[u8],
    number: u32,
    buffer: &mut Vec<u8>,
) -> Result<(), AllocError>
    requires { number < length (stored_rules texts.now) }
    ensures { OnOk result (buffer.new.items ≡ buffer.old.items ++ rule_line texts.now indent.now number) }
{
    buffer.extend_from_slice(indent)?;
    texts.push_rule(number, buffer)?;
    buffer.extend_from_slice(b"\n")
}
