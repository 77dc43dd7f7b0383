//! The constraints of a class, one behind the other.

ghost use Rattle.std.specs.Prelude.{◌≡◌, ◌<◌, IfOk, OnOk, Some, slice_get, length};
ghost use Rattle.std.specs.Iterator.{YieldsFirst, item_count};
ghost use Rattle.pol_cursor.specs.Outcome.{Answers};
ghost use Rattle.pol_classes.specs.ConstraintLists.{constraints_at, constraints_in, constraints_end, HaveConstraints};

use pol_constraints::{ConstraintRec, ConstraintView, constraint_end, read_constraint};
use pol_cursor::{Cursor, OwnedList};
use pol_fields::Fault;
use std::alloc::{AllocError, Global};
use std::marker::Model;

/// The constraints of a class, one behind the other in the buffer. Contracts see the list of those that are left.
#[derive(Drop)]
pub struct ConstraintList<'a> {
    bytes: &'a [u8],
    place: u32,
    version: u32,
    count: u32,
}

impl<'a> Model for ConstraintList<'a> {
    ghost use Rattle.std.specs.Prelude.{List};
    ghost use Rattle.pol_constraints.specs.declared.constraint_rec.ConstraintRec.{ConstraintRec};
    ghost use Rattle.pol_classes.specs.ConstraintLists.{constraints_in, HaveConstraints};

    ghost Value = { List ConstraintRec };

    ghost view = { λ l. constraints_in l.version l.bytes.now l.place l.count };

    ghost invariant = { λ l. HaveConstraints l.version l.bytes.now l.place l.count };
}

impl<'a> ConstraintList<'a> {
    /// So many constraints of a policy of that version, from a place on that has them.
    pub fn at(bytes: &'a [u8], place: u32, version: u32, count: u32) -> ConstraintList<'a>
        requires { HaveConstraints version bytes.now place count }
        ensures { result ≡ constraints_in version bytes.now place count }
    {
        ConstraintList {
            bytes,
            place,
            version,
            count,
        }
    }

    /// How many there are.
    #[tactic(auto, using(pol_commons::proofs::NestedValues::length_values_in))]
    pub fn len(&self) -> u32
        ensures { result ≡ length self.now }
    {
        self.count
    }

    /// The constraints again, from the first that is left.
    pub fn iter(&self) -> ConstraintList<'a>
        ensures { result ≡ self.now }
    {
        ConstraintList::at(self.bytes, self.place, self.version, self.count)
    }

    /// The constraint of that number, from 0 on. It goes through those before it.
    pub fn view(&self, i: u32) -> ConstraintView<'a>
        requires { i < length self.now }
        ensures { slice_get self.now i ≡ Some result }
    {
        let place = constraints_end(self.bytes, self.place, self.version, i);
        ConstraintView::at(self.bytes, place, self.version)
    }

    /// A copy of the constraints.
    pub fn rec(&self, alloc: Global) -> Result<OwnedList<ConstraintRec>, AllocError>
        ensures { IfOk result (λ constraints. constraints ≡ self.now) }
    {
        let mut constraints = Vec::new(alloc);
        for constraint in self.iter() {
            constraints.push(constraint.rec(alloc)?)?;
        }
        Ok(OwnedList::from_vec(constraints))
    }
}

impl<'a> Iterator for ConstraintList<'a> {
    type Item = ConstraintView<'a>;

    ghost next_gives = { YieldsFirst (λ rest. rest) };

    ghost remaining = { item_count (λ rest. rest) };

    fn next(&mut self) -> Option<ConstraintView<'a>> {
        if self.count == 0 {
            return None;
        }
        let constraint = ConstraintView::at(self.bytes, self.place, self.version);
        self.place = constraint_end(self.bytes, self.place, self.version);
        self.count -= 1;
        Some(constraint)
    }
}

/// The place behind so many constraints.
pub fn constraints_end(bytes: &[u8], place: u32, version: u32, count: u32) -> u32
    requires { HaveConstraints version bytes.now place count }
    ensures { result ≡ constraints_end version bytes.now place count }
{
    let mut end = place;
    for _ in 0..count {
        end = constraint_end(bytes, end, version);
    }
    end
}

/// Passes over the n constraints at the cursor, which then stands behind them. Takes no memory.
///
/// A third context is allowed in them or not. The faults are those of `read_constraint`.
pub fn pass_constraints(
    c: &mut Cursor<'_>,
    version: u32,
    xtarget: bool,
    n: u32,
) -> Result<(), Fault>
    ensures exact { Answers (λ _. constraints_in version c.old.bytes c.old.place n) result (constraints_at version xtarget n) c.old c.new }
    ensures stand { OnOk result (HaveConstraints version c.old.bytes c.old.place n) }
    ensures next { OnOk result (c.new.place ≡ constraints_end version c.old.bytes c.old.place n) }
{
    for _ in 0..n {
        read_constraint(c, version, xtarget)?;
    }
    Ok(())
}
