// The texts of the rules behind a transition.
ghost use Rattle.std.specs.Prelude.{◌≡◌, ◌<◌, ◌++◌, OnOk, All, length};
ghost use Rattle.std.specs.List.{flat_map};
ghost use Rattle.pol_read.specs.StoredRules.{stored_rules};
ghost use Rattle.rule_order.specs.ListedOrder.{AreRules};
ghost use Rattle.se_dom.specs.Inner.ReasonRules.{AreEntryRules, AreReasonRules};
ghost use Rattle.se_dom.specs.DomTexts.{entry_text, reason_line, reason_lines, reasons_text};

use dom_trans::{EntryReason, Reasons};
use pol_cursor::push_name;
use pol_fields::TableKind;
use pol_symbols::Symbols;
use rule_text::RuleTexts;
use std::alloc::AllocError;

/// Adds all rules of a transition to a buffer, a line each after an indent.
#[tactic(auto, unfolding(crate::specs::DomTexts::reasons_text))]
pub fn push_reasons(
    texts: &RuleTexts<'_, '_>,
    symbols: &Symbols<'_>,
    indent: &[u8],
    reasons: &Reasons,
    buffer: &mut Vec<u8>,
) -> Result<(), AllocError>
    requires rules { AreReasonRules texts.now reasons.now }
    requires symbols { symbols.now ≡ texts.now.symbols }
    ensures { OnOk result (buffer.new.items ≡ buffer.old.items ++ reasons_text texts.now indent.now reasons.now) }
{
    push_lines(
        texts,
        indent,
        b"transition",
        reasons.transition.as_slice(),
        buffer,
    )?;
    push_lines(
        texts,
        indent,
        b"setexec",
        reasons.setexec.as_slice(),
        buffer,
    )?;
    push_entries(texts, symbols, indent, reasons.entries.as_slice(), buffer)?;
    push_lines(
        texts,
        indent,
        b"dyntransition",
        reasons.dyntransition.as_slice(),
        buffer,
    )?;
    push_lines(
        texts,
        indent,
        b"setcurrent",
        reasons.setcurrent.as_slice(),
        buffer,
    )
}

// Adds the rules of entry types.
fn push_entries(
    texts: &RuleTexts<'_, '_>,
    symbols: &Symbols<'_>,
    indent: &[u8],
    entries: &[EntryReason],
    buffer: &mut Vec<u8>,
) -> Result<(), AllocError>
    requires rules { All (AreEntryRules texts.now) entries.now }
    requires symbols { symbols.now ≡ texts.now.symbols }
    ensures { OnOk result (buffer.new.items ≡ buffer.old.items ++ flat_map (entry_text texts.now indent.now) entries.now) }
{
    for entry in entries {
        push_entry(texts, symbols, indent, entry, buffer)?;
    }
    Ok(())
}

// Adds the rules of an entry type.
#[tactic(auto, unfolding(crate::specs::DomTexts::entry_text))]
fn push_entry(
    texts: &RuleTexts<'_, '_>,
    symbols: &Symbols<'_>,
    indent: &[u8],
    reason: &EntryReason,
    buffer: &mut Vec<u8>,
) -> Result<(), AllocError>
    requires rules { AreEntryRules texts.now reason.now }
    requires symbols { symbols.now ≡ texts.now.symbols }
    ensures { OnOk result (buffer.new.items ≡ buffer.old.items ++ entry_text texts.now indent.now reason.now) }
{
    let mut deeper = Vec::from_slice(*buffer.allocator(), indent)?;
    deeper.extend_from_slice(b"   ")?;
    buffer.extend_from_slice(indent)?;
    buffer.extend_from_slice(b"entry ")?;
    push_name(buffer, TableKind::Types, reason.entry, symbols)?;
    buffer.extend_from_slice(b"\n")?;
    push_lines(
        texts,
        &deeper,
        b"entrypoint",
        reason.entrypoint.as_slice(),
        buffer,
    )?;
    push_lines(
        texts,
        &deeper,
        b"execute",
        reason.execute.as_slice(),
        buffer,
    )?;
    push_lines(
        texts,
        &deeper,
        b"type_transition",
        reason.default.as_slice(),
        buffer,
    )
}

// Adds a line for each of some rules.
fn push_lines(
    texts: &RuleTexts<'_, '_>,
    indent: &[u8],
    word: &[u8],
    numbers: &[u32],
    buffer: &mut Vec<u8>,
) -> Result<(), AllocError>
    requires { AreRules texts.now numbers.now }
    ensures { OnOk result (buffer.new.items ≡ buffer.old.items ++ reason_lines texts.now indent.now word.now numbers.now) }
{
    for number in numbers {
        push_line(texts, indent, word, *number, buffer)?;
    }
    Ok(())
}

// Adds the line of a rule.
#[tactic(auto, unfolding(crate::specs::DomTexts::reason_line))]
fn push_line(
    texts: &RuleTexts<'_, '_>,
    indent: &[u8],
    word: &[u8],
    number: u32,
    buffer: &mut Vec<u8>,
) -> Result<(), AllocError>
    requires { number < length (stored_rules texts.now) }
    ensures { OnOk result (buffer.new.items ≡ buffer.old.items ++ reason_line texts.now indent.now word.now number) }
{
    buffer.extend_from_slice(indent)?;
    buffer.extend_from_slice(word)?;
    buffer.extend_from_slice(b": ")?;
    texts.push_rule(number, buffer)?;
    buffer.extend_from_slice(b"\n")
}
