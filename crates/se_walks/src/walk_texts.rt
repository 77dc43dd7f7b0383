// The text of a walk.
ghost use Rattle.std.specs.Prelude.{◌≡◌, ◌<◌, ◌+◌, ◌-◌, ◌++◌, Contains, OnOk, length};
ghost use Rattle.std.specs.List.{flat_map, range_with_len};
ghost use Rattle.se_walks.specs.Inner.Placed.{all_walks, next_walk};
ghost use Rattle.se_walks.specs.Inner.StepTexts.{AreStepTexts};
ghost use Rattle.se_walks.specs.WalkTexts.{heading_text, step_edge, step_text, walk_item};

use crate::EdgeTexts;
use crate::ends_texts::{push_edge, push_ends};
use crate::walks::Walks;
use kept_texts::KeptTexts;
use pol_texts::push_decimal;
use std::alloc::AllocError;

/// Adds the item of the walk that is next, with its number, to a buffer. Texts of edges are kept.
#[tactic(auto, unfolding(crate::specs::WalkTexts::walk_item))]
pub fn push_walk<T: EdgeTexts>(
    texts: &T,
    kept: &mut KeptTexts,
    number: u64,
    walks: &Walks,
    buffer: &mut Vec<u8>,
) -> Result<(), AllocError>
    requires there { Contains (all_walks walks.now) (next_walk walks.now) }
    requires kept { AreStepTexts (T.words texts.now) kept.old }
    ensures kept { OnOk result (AreStepTexts (T.words texts.now) kept.new) }
    ensures text { OnOk result (buffer.new.items ≡ buffer.old.items ++ walk_item (T.words texts.now) number (next_walk walks.now)) }
{
    push_heading(texts, number, walks, buffer)?;
    push_steps(texts, kept, walks, buffer)
}

// Adds the first line of the walk.
#[tactic(auto, unfolding(crate::specs::WalkTexts::heading_text))]
fn push_heading<T: EdgeTexts>(
    texts: &T,
    number: u64,
    walks: &Walks,
    buffer: &mut Vec<u8>,
) -> Result<(), AllocError>
    requires { Contains (all_walks walks.now) (next_walk walks.now) }
    ensures { OnOk result (buffer.new.items ≡ buffer.old.items ++ heading_text (T.words texts.now) number (next_walk walks.now)) }
{
    let last = walks.len() - 1;
    buffer.extend_from_slice(b"Path ")?;
    push_decimal(buffer, number)?;
    buffer.extend_from_slice(b": ")?;
    push_ends(texts.symbols(), walks.node(0), walks.node(last), buffer)?;
    buffer.extend_from_slice(b", steps ")?;
    push_decimal(buffer, u64::from(last))?;
    buffer.extend_from_slice(b"\n")
}

// Adds the steps of the walk.
fn push_steps<T: EdgeTexts>(
    texts: &T,
    kept: &mut KeptTexts,
    walks: &Walks,
    buffer: &mut Vec<u8>,
) -> Result<(), AllocError>
    requires there { Contains (all_walks walks.now) (next_walk walks.now) }
    requires kept { AreStepTexts (T.words texts.now) kept.old }
    ensures kept { OnOk result (AreStepTexts (T.words texts.now) kept.new) }
    ensures text { OnOk result (buffer.new.items ≡ buffer.old.items ++ flat_map (step_text (T.words texts.now) (next_walk walks.now)) (range_with_len 0 (length (next_walk walks.now) - 1))) }
{
    let last = walks.len() - 1;
    for before in 0..last {
        push_step(texts, kept, walks, before, buffer)?;
    }
    Ok(())
}

// Adds the step after so many.
#[tactic(auto, unfolding(crate::specs::WalkTexts::step_text))]
fn push_step<T: EdgeTexts>(
    texts: &T,
    kept: &mut KeptTexts,
    walks: &Walks,
    before: u32,
    buffer: &mut Vec<u8>,
) -> Result<(), AllocError>
    requires there { Contains (all_walks walks.now) (next_walk walks.now) }
    requires before { before + 1 < length (next_walk walks.now) }
    requires kept { AreStepTexts (T.words texts.now) kept.old }
    ensures kept { OnOk result (AreStepTexts (T.words texts.now) kept.new) }
    ensures text { OnOk result (buffer.new.items ≡ buffer.old.items ++ step_text (T.words texts.now) (next_walk walks.now) before) }
{
    // It has fewer nodes than a u32 counts.
    let _ = walks.len();
    buffer.extend_from_slice(b"   Step ")?;
    push_decimal(buffer, u64::from(before) + 1)?;
    buffer.extend_from_slice(b": ")?;
    push_step_edge(
        texts,
        kept,
        walks.node(before),
        walks.node(before + 1),
        buffer,
    )
}

// Adds the edge of a step. Its text is made where it is not kept, and then kept.
fn push_step_edge<T: EdgeTexts>(
    texts: &T,
    kept: &mut KeptTexts,
    from: u32,
    to: u32,
    buffer: &mut Vec<u8>,
) -> Result<(), AllocError>
    requires { AreStepTexts (T.words texts.now) kept.old }
    ensures kept { OnOk result (AreStepTexts (T.words texts.now) kept.new) }
    ensures text { OnOk result (buffer.new.items ≡ buffer.old.items ++ step_edge (T.words texts.now) from to) }
{
    if let Some(text) = kept.text(from, to) {
        return buffer.extend_from_slice(text);
    }
    let start = buffer.len();
    push_edge(texts, b"      ", from, to, buffer)?;
    kept.keep(from, to, &buffer[start..])
}
