// What a check finds, text by text.
ghost use Rattle.std.specs.Prelude.{◌≡◌, ◌+◌, ◌++◌, ◌<◌, IfOk, OnOk, All, length, slice_index};
ghost use Rattle.se_verdicts.specs.CheckAnswer.{found_line};
ghost use Rattle.se_verdicts.specs.Inner.CheckLines.{IsFoundBy, IsThere, text_at};

use check_list::Check;
use pol_cursor::push_name;
use pol_expand::values_in;
use pol_fields::TableKind;
use rule_text::RuleTexts;
use se_checker::{Checker, Verdict};
use std::alloc::{AllocError, Global};

/// What a check found: rules or types.
#[derive(Clone, Copy)]
pub enum FoundKind {
    Rules,
    Types,
}

/// What a check found, by numbers of rules or by values of types, from the next one that is left.
#[derive(Drop)]
pub struct Found {
    pub kind: FoundKind,
    pub values: Vec<u32>,
    pub next: usize,
}

/// All that a check finds.
pub fn found_by(
    alloc: Global,
    checker: &Checker<'_, '_>,
    check: &Check<'_>,
) -> Result<Found, AllocError>
    ensures { IfOk result (IsFoundBy checker.now check.now) }
{
    match checker.verdict(alloc, check)? {
        Verdict::Rules(numbers) => Ok(Found {
            kind: FoundKind::Rules,
            values: numbers,
            next: 0,
        }),
        Verdict::Types(types) => Ok(Found {
            kind: FoundKind::Types,
            values: values_in(alloc, &types)?,
            next: 0,
        }),
    }
}

/// Adds the line of a rule or a type.
#[tactic(auto, unfolding(crate::specs::CheckAnswer::found_line))]
pub fn push_found_line(
    texts: &RuleTexts<'_, '_>,
    kind: FoundKind,
    value: u32,
    buffer: &mut Vec<u8>,
) -> Result<(), AllocError>
    requires { IsThere kind texts.now value }
    ensures { OnOk result (buffer.new.items ≡ buffer.old.items ++ found_line (text_at kind texts.now value)) }
{
    buffer.extend_from_slice(b"   ")?;
    push_text(texts, kind, value, buffer)?;
    buffer.extend_from_slice(b"\n")
}

// Adds the text of a rule, or the name of a type.
fn push_text(
    texts: &RuleTexts<'_, '_>,
    kind: FoundKind,
    value: u32,
    buffer: &mut Vec<u8>,
) -> Result<(), AllocError>
    requires { IsThere kind texts.now value }
    ensures { OnOk result (buffer.new.items ≡ buffer.old.items ++ text_at kind texts.now value) }
{
    match kind {
        FoundKind::Rules => texts.push_rule(value, buffer),
        FoundKind::Types => push_name(buffer, TableKind::Types, value, texts.policy().symbols()),
    }
}
