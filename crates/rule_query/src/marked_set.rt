// Sets that are asked for one value after the other.
ghost use Rattle.std.specs.Prelude.{◌≡◌, IfOk, option_map};
ghost use Rattle.pol_bitmap.specs.Nodes.{has_bit};
ghost use Rattle.rule_query.specs.Inner.MarkedSets.{AreMarksOf};

use pol_bitmap::Set;
use std::alloc::{AllocError, Global};
use std::marker::Model;
use value_groups::DenseSet;

// The values below this number have marks: those of all types, which are at most 65,535.
const MARKED: u32 = 65536;

/// A set that tells by a mark for each value whether it has the value, where none of its values is too large for a mark. Contracts see
/// the set.
pub struct MarkedSet {
    set: Set,
    marks: Option<DenseSet>,
}

// Its parts go in one call, wherever it is dropped.
impl Drop for MarkedSet {
    fn drop(self) {
        let MarkedSet { set, marks } = self;
    }
}

impl Model for MarkedSet {
    ghost use Rattle.std.specs.Prelude.{List};
    ghost use Rattle.pol_bitmap.specs.declared.Node.{Node};
    ghost use Rattle.rule_query.specs.Inner.MarkedSets.{AreMarksOf};

    ghost Value = { List Node };

    ghost view = { λ m. m.set };

    ghost invariant = { λ m. AreMarksOf m.set m.marks };
}

impl MarkedSet {
    /// A set with its marks.
    pub fn of(alloc: Global, set: Set) -> Result<MarkedSet, AllocError>
        ensures { IfOk result (λ marked. marked ≡ set) }
    {
        let marks = marks_of(alloc, &set)?;
        Ok(MarkedSet { set, marks })
    }

    /// The set.
    pub fn set(&self) -> &Set
        ensures { result.now ≡ self.now }
    {
        &self.set
    }

    /// Its marks, where it has some.
    pub fn marks(&self) -> Option<&DenseSet>
        ensures { AreMarksOf self.now (option_map (λ marks. marks.now) result) }
    {
        self.marks.as_ref()
    }

    /// Whether it has a value.
    pub fn has(&self, value: u32) -> bool
        ensures { result ≡ has_bit self.now value }
    {
        match &self.marks {
            Some(marks) => marks.has(value),
            None => has_value(&self.set, value),
        }
    }
}

// The marks of a set, where none of its values is too large for one.
fn marks_of(alloc: Global, set: &Set) -> Result<Option<DenseSet>, AllocError>
    ensures { IfOk result (AreMarksOf set.now) }
{
    if set.next_from(MARKED).is_some() {
        return Ok(None);
    }
    let mut marks = DenseSet::new(alloc, MARKED as usize)?;
    marks.add_set(set);
    Ok(Some(marks))
}

/// Whether a set has a value.
pub fn has_value(set: &Set, value: u32) -> bool
    ensures { result ≡ has_bit set.now value }
{
    set.has(value)
}
