// The lines of rows: of a rule between one source and its targets.
ghost use Rattle.std.specs.Prelude.{◌≡◌, ◌++◌, ◌<◌, ℕ, IfOk, length};
ghost use Rattle.pol_file.specs.declared.Parts.{Parts};
ghost use Rattle.pol_read.specs.StoredRules.{stored_rules};
ghost use Rattle.rule_text.specs.RuleFrames.{frame_target};
ghost use Rattle.se_search.specs.Inner.RowLines.{IsFrameOf, IsHeadOf, IsLast, PushesTargets};

use pol_bitmap::SetBits;
use rule_text::{RuleFrame, RuleTexts};
use set_products::Row;
use std::alloc::{AllocError, Global};

/// The line of a rule with its ends left open, and what of it stands before and between the targets of a source.
#[derive(Drop)]
pub struct SourceFrame<'p, 'a> {
    pub rule: u32,
    pub frame: RuleFrame<'p, 'a>,
    pub head: Vec<u8>,
    pub between: Vec<u8>,
}

/// A row whose lines are written.
#[derive(Drop)]
pub struct RowLines<'s, 'p, 'a> {
    pub row: Row<'s>,
    pub frame: SourceFrame<'p, 'a>,
}

/// The frame of a rule and a source. The last one serves again where it is that of the rule.
pub fn frame_between<'p, 'a>(
    alloc: Global,
    texts: &RuleTexts<'p, 'a>,
    last: Option<SourceFrame<'p, 'a>>,
    rule: u32,
    source: u32,
) -> Result<SourceFrame<'p, 'a>, AllocError>
    requires rule { rule < length (stored_rules texts.now) }
    requires last { IsLast texts.now last }
    ensures rule { IfOk result (IsFrameOf texts.now rule) }
    ensures head { IfOk result (IsHeadOf source) }
{
    let of_rule = frame_of(alloc, texts, last, rule)?;
    with_source(of_rule, source)
}

// The frame of a rule, with any source: the last one, where it is that of the rule.
fn frame_of<'p, 'a>(
    alloc: Global,
    texts: &RuleTexts<'p, 'a>,
    last: Option<SourceFrame<'p, 'a>>,
    rule: u32,
) -> Result<SourceFrame<'p, 'a>, AllocError>
    requires rule { rule < length (stored_rules texts.now) }
    requires last { IsLast texts.now last }
    ensures { IfOk result (IsFrameOf texts.now rule) }
{
    if let Some(last) = last {
        if last.rule == rule {
            return Ok(last);
        }
    }
    Ok(SourceFrame {
        rule,
        frame: texts.frame(alloc, rule)?,
        head: Vec::new(alloc),
        between: Vec::new(alloc),
    })
}

// The frame of the same rule with a source.
fn with_source<'p, 'a>(
    of_rule: SourceFrame<'p, 'a>,
    source: u32,
) -> Result<SourceFrame<'p, 'a>, AllocError>
    ensures rule { (policy : Parts) (rule : ℕ) → IsFrameOf policy rule of_rule.entry → IfOk result (IsFrameOf policy rule) }
    ensures head { IfOk result (IsHeadOf source) }
{
    let SourceFrame {
        rule,
        frame,
        mut head,
        mut between,
    } = of_rule;
    head.clear();
    frame.push_head(source, &mut head)?;
    between.clear();
    between.extend_from_slice(frame.rest())?;
    between.extend_from_slice(&head)?;
    Ok(SourceFrame {
        rule,
        frame,
        head,
        between,
    })
}

/// Adds the lines of the targets of a row, at most so many, and answers how many.
pub fn push_targets(
    frame: &SourceFrame<'_, '_>,
    targets: &mut SetBits<'_>,
    most: u64,
    buffer: &mut Vec<u8>,
) -> Result<u64, AllocError>
    requires between { frame.now.between.items ≡ frame.now.frame.rest.items ++ frame.now.head.items }
    requires some { 0 < most }
    ensures { IfOk result (PushesTargets (λ target. frame.now.head.items ++ frame_target frame.now.frame target ++ frame.now.frame.rest.items) most targets.old targets.new buffer.old.items buffer.new.items) }
{
    let Some(first) = targets.next() else {
        return Ok(0);
    };
    buffer.extend_from_slice(&frame.head)?;
    frame.frame.push_target(first, buffer)?;
    let others = push_others(&frame.frame, &frame.between, targets, most - 1, buffer)?;
    buffer.extend_from_slice(frame.frame.rest())?;
    Ok(others + 1)
}

// Adds the names of further targets, at most so many, each behind what stands between two, and answers how many.
fn push_others(
    frame: &RuleFrame<'_, '_>,
    between: &[u8],
    targets: &mut SetBits<'_>,
    most: u64,
    buffer: &mut Vec<u8>,
) -> Result<u64, AllocError>
    ensures { IfOk result (PushesTargets (λ target. between.now ++ frame_target frame.now target) most targets.old targets.new buffer.old.items buffer.new.items) }
{
    'others: for count in 0..most {
        let Some(target) = targets.next() else {
            return Ok(count);
        };
        buffer.extend_from_slice(between)?;
        frame.push_target(target, buffer)?;
    }
    Ok(most)
}
