//! The forms that have targets of one block of 64 numbers.
ghost use Rattle.std.specs.Prelude.{◌≡◌, ◌<◌, ◌/◌, ℕ, Bool, true, IfOk, IfSome, IsTrue, length};
ghost use Rattle.std.specs.List.{filter};
ghost use Rattle.numbered_rules.specs.Forms.{HaveSets, bits_at};
ghost use Rattle.numbered_rules.specs.NumberedRules.{has};
ghost use Rattle.numbered_rules.specs.Inner.Blocks.{AreOfBlock, IsBlockOf};

use crate::form::RuleForm;
use pol_bitmap::Pool;
use std::alloc::{AllocError, Global};

/// The forms of both lists that have targets of a block, which is known by its number: its targets are those that 64 divides so often.
#[derive(Drop)]
pub(crate) struct Block {
    pub(crate) number: u32,
    pub(crate) first: Vec<RuleForm>,
    pub(crate) second: Vec<RuleForm>,
}

/// The block of a number, among the forms of both lists, where one block may be at hand.
pub(crate) fn block_of(
    alloc: Global,
    pool: &Pool,
    known: Option<Block>,
    first: &[RuleForm],
    second: &[RuleForm],
    number: u32,
) -> Result<Block, AllocError>
    requires known { IfSome known (IsBlockOf pool.now first.now second.now) }
    requires first { HaveSets pool.now first.now }
    requires second { HaveSets pool.now second.now }
    requires fits { number < 67108864 }
    ensures number { IfOk result (λ block. block.number ≡ number) }
    ensures is { IfOk result (IsBlockOf pool.now first.now second.now) }
{
    if let Some(block) = known {
        if block.number == number {
            return Ok(block);
        }
    }
    Ok(Block {
        number,
        first: forms_in(alloc, pool, first, number)?,
        second: forms_in(alloc, pool, second, number)?,
    })
}

// The forms that have targets of a block.
fn forms_in(
    alloc: Global,
    pool: &Pool,
    forms: &[RuleForm],
    block: u32,
) -> Result<Vec<RuleForm>, AllocError>
    requires sets { HaveSets pool.now forms.now }
    requires fits { block < 67108864 }
    ensures sets { IfOk result (λ found. HaveSets pool.now found.items) }
    ensures block { IfOk result (λ found. AreOfBlock pool.now block forms.now found.items) }
{
    let mut found = Vec::new(alloc);
    for form in forms {
        if meets_block(pool, form.targets, block) {
            found.push(*form)?;
        }
    }
    Ok(found)
}

// Whether the set of a number has numbers of a block.
fn meets_block(pool: &Pool, set: u32, block: u32) -> bool
    requires within { set < length pool.now }
    requires fits { block < 67108864 }
    ensures { (n : ℕ) → n / 64 ≡ block → has (bits_at pool.now set) n ≡ true → IsTrue result }
{
    match pool.get(set).next_from(block * 64) {
        Some(found) => found / 64 == block,
        None => false,
    }
}
