//! The texts of pairs of numbers, as far as they were written last.

ghost use Rattle.std.specs.Prelude.{◌≡◌, ◌<◌, ℕ, List, IfOk, IfSome, length};
ghost use Rattle.kept_texts.specs.KeptTexts.{AreTexts, IsText};

use std::alloc::{AllocError, Global};
use std::marker::Model;

// How many texts are kept at most.
const SLOTS: usize = 4096;

// How many bytes the texts that are kept have at most, all together.
const ROOM: usize = 16_777_216;

/// A pair of numbers.
#[derive(Clone, Copy, PartialEq, Eq)]
pub struct Pair {
    pub from: u32,
    pub to: u32,
}

impl Pair {
    // The slot of its text. Any would do: this one spreads those that come together.
    fn slot(self) -> usize
        ensures { result < 4096 }
    {
        let mixed = (self.from.wrapping_mul(0x85EB_CA6B) ^ self.to).wrapping_mul(0x9E37_79B1);
        (mixed >> 20) as usize % SLOTS
    }
}

/// The text of a pair.
#[derive(Drop)]
pub struct KeptText {
    pub pair: Pair,
    pub text: Vec<u8>,
}

/// Texts of pairs of numbers: 4,096 at most, of 16 MiB together. A text takes the place of another. Contracts see the slots in which they
/// are kept.
#[derive(Drop)]
pub struct KeptTexts {
    alloc: Global,
    slots: Vec<Option<KeptText>>,
    // How many bytes more may be kept.
    room: usize,
}

impl Model for KeptTexts {
    ghost use Rattle.std.specs.Prelude.{◌≡◌, List, Option, length};
    ghost use Rattle.kept_texts.specs.declared.kept.KeptText.{KeptText};

    ghost Value = { List (Option KeptText) };

    ghost view = { λ kept. kept.slots.items };

    ghost invariant = { λ kept. length kept.slots.items ≡ 4096 };
}

impl KeptTexts {
    /// None is kept yet.
    pub fn none(alloc: Global) -> Result<KeptTexts, AllocError>
        ensures { (text : ℕ → ℕ → List ℕ) → IfOk result (AreTexts text) }
    {
        let slots = empty_slots(alloc)?;
        Ok(KeptTexts {
            alloc,
            slots,
            room: ROOM,
        })
    }

    /// The text of a pair, where it is kept.
    pub fn text(&self, from: u32, to: u32) -> Option<&[u8]>
        ensures { (text : ℕ → ℕ → List ℕ) → AreTexts text self.now → IfSome result (λ kept. kept.now ≡ text from to) }
    {
        let pair = Pair { from, to };
        text_in(&self.slots[pair.slot()], pair)
    }

    /// Keeps the text of a pair, where there is room for it.
    pub fn keep(&mut self, from: u32, to: u32, text: &[u8]) -> Result<(), AllocError>
        ensures { (text_of : ℕ → ℕ → List ℕ) → text.now ≡ text_of from to → AreTexts text_of self.old → AreTexts text_of self.new }
    {
        let pair = Pair { from, to };
        let freed = len_in(&self.slots[pair.slot()]);
        let room = self.room.saturating_add(freed);
        if text.len() > room {
            return Ok(());
        }
        self.room = room - text.len();
        let text = Vec::from_slice(self.alloc, text)?;
        self.slots[pair.slot()] = Some(KeptText { pair, text });
        Ok(())
    }
}

// Slots that keep no text.
fn empty_slots(alloc: Global) -> Result<Vec<Option<KeptText>>, AllocError>
    ensures count { IfOk result (λ slots. length slots.items ≡ 4096) }
    ensures texts { (text : ℕ → ℕ → List ℕ) → IfOk result (λ slots. AreTexts text slots.items) }
{
    let mut slots = Vec::with_capacity(alloc, SLOTS)?;
    'slots: for _number in 0..SLOTS {
        slots.push(None)?;
    }
    Ok(slots)
}

// The number of bytes that a slot keeps.
fn len_in(slot: &Option<KeptText>) -> usize {
    match slot {
        Some(kept) => kept.text.len(),
        None => 0,
    }
}

// The text in a slot, where it is that of a pair.
fn text_in(slot: &Option<KeptText>, pair: Pair) -> Option<&[u8]>
    ensures { (text : ℕ → ℕ → List ℕ) → IsText text slot.now → IfSome result (λ kept. kept.now ≡ text pair.from pair.to) }
{
    match slot {
        Some(kept) if kept.pair == pair => Some(&kept.text),
        _ => None,
    }
}
