// Walks, as a text that is made walk by walk.
ghost use Rattle.std.specs.Prelude.{◌≡◌, ◌+◌, ◌<◌, ◌∷◌, OnOk, drop, true};
ghost use Rattle.se_walks.specs.Inner.Placed.{IsNextIf, next_walk};
ghost use Rattle.se_walks.specs.WalkTexts.{walk_item};

use crate::EdgeTexts;
use crate::walk_texts::push_walk;
use crate::walks::Walks;
use kept_texts::KeptTexts;
use se_items::Pieces;
use std::alloc::{AllocError, Global};

/// Walks, from the one on that is next up to another.
#[derive(Drop)]
pub struct WalkItems<'q, T> {
    pub texts: &'q T,
    pub walks: Walks,
    // whether there is a walk that is next
    pub more: bool,
    // how many walks come before it, and before the end
    pub number: u64,
    pub end: u64,
    // the texts of edges that were written last
    pub kept: KeptTexts,
    pub ghost next: { IsNextIf more walks number end },
}

impl<T: EdgeTexts> WalkItems<'_, T> {
    ghost use Rattle.se_walks.specs.Inner.WalkItems.{walks_left};

    /// Passes over so many walks, or all. The shortest walk behind them is found, and others are gone through one by one.
    pub fn skip(&mut self, alloc: Global, count: u64) -> Result<(), AllocError>
        ensures left { OnOk result (walks_left T.words self.new ≡ drop count (walks_left T.words self.old)) }
        ensures texts { self.new.texts.now ≡ self.old.texts.now }
        ensures kept { self.new.kept ≡ self.old.kept }
    {
        if !self.more {
            return Ok(());
        }
        if count >= self.end - self.number {
            self.more = false;
            return Ok(());
        }
        self.pass(alloc, count)
    }

    // Passes over so many walks, or all. They end before the end.
    fn pass(&mut self, alloc: Global, count: u64) -> Result<(), AllocError>
        requires more { self.old.more ≡ true }
        requires before { self.old.number + count < self.old.end }
        ensures left { OnOk result (walks_left T.words self.new ≡ drop count (walks_left T.words self.old)) }
        ensures texts { self.new.texts.now ≡ self.old.texts.now }
        ensures kept { self.new.kept ≡ self.old.kept }
    {
        match &mut self.walks {
            Walks::Shortest(walks) => {
                match walks.layers.walk_at(alloc, self.number + count)? {
                    Some(walk) => {
                        walks.walk = walk;
                        self.number += count;
                    }
                    None => self.more = false,
                }
            }
            Walks::Simple(_) => self.pass_each(count),
        }
        Ok(())
    }

    // Passes over so many walks, or all, one by one.
    fn pass_each(&mut self, count: u64)
        ensures left { walks_left T.words self.new ≡ drop count (walks_left T.words self.old) }
        ensures texts { self.new.texts.now ≡ self.old.texts.now }
        ensures kept { self.new.kept ≡ self.old.kept }
    {
        'passed: for _number in 0..count {
            if !self.more {
                return;
            }
            self.advance();
        }
    }

    // Goes on to the next walk, if there is one.
    fn advance(&mut self)
        requires { self.old.more ≡ true }
        ensures texts { self.new.texts.now ≡ self.old.texts.now }
        ensures kept { self.new.kept ≡ self.old.kept }
        ensures left { walks_left T.words self.old ≡ walk_item (T.words self.old.texts.now) (self.old.number + 1) (next_walk self.old.walks) ∷ walks_left T.words self.new }
    {
        self.number += 1;
        if self.number < self.end {
            self.more = self.walks.advance();
        } else {
            self.more = false;
        }
    }
}

impl<T: EdgeTexts> Pieces for WalkItems<'_, T> {
    ghost use Rattle.se_walks.specs.Inner.StepTexts.{AreStepTexts};
    ghost use Rattle.se_walks.specs.Inner.WalkItems.{text_left};

    ghost left = { text_left T.words };

    ghost stands = { λ items. AreStepTexts (T.words items.texts.now) items.kept };

    fn push_piece(&mut self, buffer: &mut Vec<u8>) -> Result<bool, AllocError> {
        if !self.more {
            return Ok(false);
        }
        push_walk(
            self.texts,
            &mut self.kept,
            self.number + 1,
            &self.walks,
            buffer,
        )?;
        self.advance();
        Ok(true)
    }
}
