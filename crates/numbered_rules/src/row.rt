//! The differences at a source.
ghost use Rattle.std.specs.Prelude.{◌≡◌, ◌∷◌, [], ◌<◌, IfOk, MatchOption, map, reverse};
ghost use Rattle.std.specs.List.{All, filter, flat_map};
ghost use Rattle.std.specs.Ordering.{nat_cmp};
ghost use Rattle.keyed_lists.specs.KeyOrder.{keys_in_order};
ghost use Rattle.pol_bitmap.specs.Nodes.{bits_of};
ghost use Rattle.numbered_rules.specs.Forms.{HaveSets, bits_at, rules_of};
ghost use Rattle.numbered_rules.specs.NumberedRules.{has};
ghost use Rattle.numbered_rules.specs.Inner.Cells.{row_differences, target_differences};

use crate::block::{Block, block_of};
use crate::cell::{cell_differences, cell_keys};
use crate::difference::SingleDifference;
use crate::form::RuleForm;
use crate::key::Counting;
use crate::sets::{has_number, known_of, union_of};
use pol_bitmap::{Pool, Set};
use std::alloc::{AllocError, Global};
use std::marker::Model;

/// The differences at a source that are left. Contracts see the list of them.
#[derive(Drop)]
pub(crate) struct Row<'p> {
    pool: &'p Pool,
    counting: Counting,
    source: u32,
    // the forms of each list that have the source
    first: Vec<RuleForm>,
    second: Vec<RuleForm>,
    // the forms that have targets of the block of the target before
    block: Option<Block>,
    // the targets to come, from the last to the first
    targets: Vec<u32>,
    // the differences at the target before them that are left, from the last to the first
    cell: Vec<SingleDifference>,
}

impl<'p> Model for Row<'p> {
    ghost use Rattle.std.specs.Prelude.{IfSome, List, ◌++◌, reverse};
    ghost use Rattle.std.specs.List.{flat_map};
    ghost use Rattle.keyed_lists.specs.Differences.{Both};
    ghost use Rattle.numbered_rules.specs.NumberedRules.{SingleEntry};
    ghost use Rattle.numbered_rules.specs.Forms.{HaveSets, rules_of};
    ghost use Rattle.numbered_rules.specs.Inner.Blocks.{IsBlockOf};
    ghost use Rattle.numbered_rules.specs.Inner.Cells.{target_differences};

    ghost Value = { List (Both SingleEntry) };

    ghost view = { λ r. reverse r.cell.items ++ flat_map (target_differences r.counting r.source (rules_of r.pool.now r.first.items) (rules_of r.pool.now r.second.items)) (reverse r.targets.items) };

    ghost invariant = { λ r. HaveSets r.pool.now r.first.items × HaveSets r.pool.now r.second.items × IfSome r.block (IsBlockOf r.pool.now r.first.items r.second.items) };
}

impl<'p> Row<'p> {
    /// No difference.
    pub(crate) fn empty(alloc: Global, pool: &'p Pool, counting: Counting) -> Row<'p>
        ensures { result ≡ [] }
    {
        Row {
            pool,
            counting,
            source: 0,
            first: Vec::new(alloc),
            second: Vec::new(alloc),
            block: None,
            targets: Vec::new(alloc),
            cell: Vec::new(alloc),
        }
    }

    /// The differences at a source. Only the targets of the forms that are left are looked at.
    pub(crate) fn new(
        alloc: Global,
        pool: &'p Pool,
        counting: Counting,
        left: &[RuleForm],
        first: &[RuleForm],
        second: &[RuleForm],
        source: u32,
    ) -> Result<Row<'p>, AllocError>
        requires left { HaveSets pool.now left.now }
        requires first { HaveSets pool.now first.now }
        requires second { HaveSets pool.now second.now }
        ensures { IfOk result (λ row. row ≡ row_differences counting (rules_of pool.now left.now) (rules_of pool.now first.now) (rules_of pool.now second.now) source) }
    {
        let left = forms_from(alloc, pool, left, source)?;
        Ok(Row {
            pool,
            counting,
            source,
            first: forms_from(alloc, pool, first, source)?,
            second: forms_from(alloc, pool, second, source)?,
            block: None,
            targets: falling(alloc, &targets_of(alloc, pool, &left)?)?,
            cell: Vec::new(alloc),
        })
    }

    /// The next difference, or `None` exactly where none is left.
    pub(crate) fn next(&mut self, alloc: Global) -> Result<Option<SingleDifference>, AllocError>
        ensures { IfOk result (λ next. MatchOption next (self.old ≡ []) (λ difference. self.old ≡ difference ∷ self.new)) }
    {
        'cells: while self.cell.is_empty() {
            let Some(target) = self.targets.pop() else {
                return Ok(None);
            };
            let block = block_of(
                alloc,
                self.pool,
                self.block.take(),
                &self.first,
                &self.second,
                target / 64,
            )?;
            self.cell = differences_to(
                alloc,
                self.pool,
                self.counting,
                self.source,
                &block.first,
                &block.second,
                target,
            )?;
            self.block = Some(block);
        }
        Ok(self.cell.pop())
    }
}

// The differences at a target, from the last to the first, where all the forms have the source.
fn differences_to(
    alloc: Global,
    pool: &Pool,
    counting: Counting,
    source: u32,
    first: &[RuleForm],
    second: &[RuleForm],
    target: u32,
) -> Result<Vec<SingleDifference>, AllocError>
    requires first { HaveSets pool.now first.now }
    requires second { HaveSets pool.now second.now }
    ensures { IfOk result (λ differences. reverse differences.items ≡ target_differences counting source (rules_of pool.now first.now) (rules_of pool.now second.now) target) }
{
    let first = forms_to(alloc, pool, first, target)?;
    let second = forms_to(alloc, pool, second, target)?;
    let keys = cell_keys(alloc, source, target, &first, &second)?;
    Ok(cell_differences(alloc, pool, counting, &keys, &first, &second)?)
}

// The numbers of a set, from the last to the first.
#[tactic(auto, using(crate::proofs::FormFacts::turned_back))]
pub(crate) fn falling(alloc: Global, set: &Set) -> Result<Vec<u32>, AllocError>
    ensures { IfOk result (λ numbers. reverse numbers.items ≡ bits_of set.now) }
{
    let mut numbers = rising(alloc, set)?;
    numbers.reverse();
    Ok(numbers)
}

// The numbers of a set.
fn rising(alloc: Global, set: &Set) -> Result<Vec<u32>, AllocError>
    ensures { IfOk result (λ numbers. numbers.items ≡ bits_of set.now) }
{
    set.bits().collect(alloc)
}

// The forms that have a source. Those of one set of sources stand together, so that it is looked at once.
fn forms_from(
    alloc: Global,
    pool: &Pool,
    forms: &[RuleForm],
    source: u32,
) -> Result<Vec<RuleForm>, AllocError>
    requires { HaveSets pool.now forms.now }
    ensures { IfOk result (λ found. found.items ≡ filter (λ form. has (bits_at pool.now form.sources) source) forms.now) }
{
    let mut found = Vec::new(alloc);
    let mut known = None;
    for form in forms {
        let now = known_of(pool, known, form.sources, source);
        if now.has {
            found.push(*form)?;
        }
        known = Some(now);
    }
    Ok(found)
}

// The forms that have a target.
fn forms_to(
    alloc: Global,
    pool: &Pool,
    forms: &[RuleForm],
    target: u32,
) -> Result<Vec<RuleForm>, AllocError>
    requires { HaveSets pool.now forms.now }
    ensures { IfOk result (λ found. found.items ≡ filter (λ form. has (bits_at pool.now form.targets) target) forms.now) }
{
    let mut found = Vec::new(alloc);
    for form in forms {
        if has_number(pool, form.targets, target) {
            found.push(*form)?;
        }
    }
    Ok(found)
}

// The targets of forms.
fn targets_of(alloc: Global, pool: &Pool, forms: &[RuleForm]) -> Result<Set, AllocError>
    requires { HaveSets pool.now forms.now }
    ensures { IfOk result (λ set. bits_of set ≡ keys_in_order nat_cmp (flat_map (λ rule. rule.targets) (rules_of pool.now forms.now))) }
{
    let sets = target_sets(alloc, forms)?;
    Ok(union_of(alloc, pool, &sets)?)
}

// The numbers of the sets of targets.
fn target_sets(alloc: Global, forms: &[RuleForm]) -> Result<Vec<u32>, AllocError>
    ensures { IfOk result (λ sets. sets.items ≡ map (λ form. form.targets) forms.now) }
{
    forms.iter().map(|form| form.targets).collect(alloc)
}
