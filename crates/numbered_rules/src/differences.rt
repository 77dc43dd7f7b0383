//! The differences of two lists of rules.
ghost use Rattle.std.specs.Prelude.{◌≡◌, ◌∷◌, [], IfOk, MatchOption, List, map};
ghost use Rattle.std.specs.List.{flat_map};
ghost use Rattle.std.specs.Ordering.{nat_cmp};
ghost use Rattle.pol_bitmap.specs.Nodes.{bits_of};
ghost use Rattle.numbered_rules.specs.Forms.{HaveSets, rules_of};
ghost use Rattle.numbered_rules.specs.NumberedRules.{single_differences};
ghost use Rattle.numbered_rules.specs.Inner.Cells.{all_sources};

use crate::difference::SingleDifference;
use crate::form::RuleForm;
use crate::key::Counting;
use crate::left::{left_of, of_classes};
use crate::row::{Row, falling};
use crate::sets::union_of;
use pol_bitmap::{Pool, Set};
use std::alloc::{AllocError, Global};
use std::marker::Model;

/// The differences between what two lists of rules give between single sources and targets, by their keys, in order. Contracts see the
/// list of those that are left.
///
/// They are found source by source and target by target, where a rule is looked at that one list alone has, and no list of them is made.
#[derive(Drop)]
pub struct SingleDifferences<'p> {
    pool: &'p Pool,
    counting: Counting,
    // the forms that one list alone has
    left: Vec<RuleForm>,
    // the forms of both lists that have the classes of these
    first: Vec<RuleForm>,
    second: Vec<RuleForm>,
    // the sources to come, from the last to the first
    sources: Vec<u32>,
    row: Row<'p>,
}

impl<'p> Model for SingleDifferences<'p> {
    ghost use Rattle.std.specs.Prelude.{List, ◌++◌, reverse};
    ghost use Rattle.std.specs.List.{flat_map};
    ghost use Rattle.keyed_lists.specs.Differences.{Both};
    ghost use Rattle.numbered_rules.specs.NumberedRules.{SingleEntry};
    ghost use Rattle.numbered_rules.specs.Forms.{HaveSets, rules_of};
    ghost use Rattle.numbered_rules.specs.Inner.Cells.{row_differences};

    ghost Value = { List (Both SingleEntry) };

    ghost view = { λ d. d.row ++ flat_map (row_differences d.counting (rules_of d.pool.now d.left.items) (rules_of d.pool.now d.first.items) (rules_of d.pool.now d.second.items)) (reverse d.sources.items) };

    ghost invariant = { λ d. HaveSets d.pool.now d.left.items × HaveSets d.pool.now d.first.items × HaveSets d.pool.now d.second.items };
}

impl<'p> SingleDifferences<'p> {
    /// The differences from the first list of rules to the second, whose sets are those of the pool.
    pub fn new(
        alloc: Global,
        pool: &'p Pool,
        counting: Counting,
        first: Vec<RuleForm>,
        second: Vec<RuleForm>,
    ) -> Result<SingleDifferences<'p>, AllocError>
        requires first { HaveSets pool.now first.items }
        requires second { HaveSets pool.now second.items }
        ensures { IfOk result (λ differences. differences ≡ single_differences counting (rules_of pool.now first.items) (rules_of pool.now second.items)) }
    {
        let left = left_of(alloc, &first, &second)?;
        let first = of_classes(alloc, &left, &first)?;
        let second = of_classes(alloc, &left, &second)?;
        let sources = falling(alloc, &sources_of(alloc, pool, &left)?)?;
        Ok(SingleDifferences {
            pool,
            counting,
            left,
            first,
            second,
            sources,
            row: Row::empty(alloc, pool, counting),
        })
    }

    /// The next difference, or `None` exactly where none is left.
    pub fn next(&mut self, alloc: Global) -> Result<Option<SingleDifference>, AllocError>
        ensures { IfOk result (λ next. MatchOption next (self.old ≡ []) (λ difference. self.old ≡ difference ∷ self.new)) }
    {
        'rows: while true {
            if let Some(difference) = self.row.next(alloc)? {
                return Ok(Some(difference));
            }
            let Some(source) = self.sources.pop() else {
                return Ok(None);
            };
            self.row = Row::new(
                alloc,
                self.pool,
                self.counting,
                &self.left,
                &self.first,
                &self.second,
                source,
            )?;
        }
        Ok(None)
    }
}

// The sources of forms.
fn sources_of(alloc: Global, pool: &Pool, forms: &[RuleForm]) -> Result<Set, AllocError>
    requires { HaveSets pool.now forms.now }
    ensures { IfOk result (λ set. bits_of set ≡ all_sources (rules_of pool.now forms.now)) }
{
    let sets = source_sets(alloc, forms)?;
    Ok(union_of(alloc, pool, &sets)?)
}

// The numbers of the sets of sources.
fn source_sets(alloc: Global, forms: &[RuleForm]) -> Result<Vec<u32>, AllocError>
    ensures { IfOk result (λ sets. sets.items ≡ map (λ form. form.sources) forms.now) }
{
    forms.iter().map(|form| form.sources).collect(alloc)
}
