//! A conditional node in the buffer, and how it is read.

ghost use Rattle.std.specs.Prelude.{◌≡◌, ◌+◌, ◌≤◌, true, false, IfOk, OnOk, length};
ghost use Rattle.pol_fields.specs.declared.limits.TheConstants.{MAX_POLICY_BYTES};
ghost use Rattle.std.specs.List.{flat_map};
ghost use Rattle.pol_cursor.specs.Outcome.{Answers};
ghost use Rattle.pol_cursor.specs.References.{dangling_of, values_of};
ghost use Rattle.pol_cursor.specs.Parts.{counted};
ghost use Rattle.pol_avtab.specs.AvRecord.{av_references};
ghost use Rattle.pol_conditionals.specs.CondNodeRecord.{conditional_rules_at, condnode_at, condnode_in, condnode_end, HasCondNode, HasRules, rules_in, rules_end, true_count_place, false_count_place, node_condition, branch_rules, condnode_references};

use crate::condnode_rec::CondNodeRec;
use pol_avtab::Av;
use pol_cursor::{Cursor, Names, NestedRecords, end_of_nested, read_nested, u32_in};
use pol_expr::{ConditionView, read_condition};
use pol_fields::fields::{CONDNODE_NFALSE, CONDNODE_NTRUE};
use pol_fields::{Fault, Field};
use std::alloc::{AllocError, Global};
use std::marker::Model;

/// A conditional node in the buffer. Contracts see it with its place.
#[derive(Drop)]
pub struct CondNodeView<'a> {
    bytes: &'a [u8],
    place: u32,
}

impl<'a> Model for CondNodeView<'a> {
    ghost use Rattle.pol_cursor.specs.References.{Placed};
    ghost use Rattle.pol_conditionals.specs.declared.condnode_rec.CondNodeRec.{CondNodeRec};
    ghost use Rattle.pol_conditionals.specs.CondNodeRecord.{condnode_in, HasCondNode};

    ghost Value = { Placed CondNodeRec };

    ghost view = { λ v. record { place = v.place; value = condnode_in v.bytes.now v.place } };

    ghost invariant = { λ v. HasCondNode v.bytes.now v.place };
}

impl<'a> CondNodeView<'a> {
    /// The node at a place that has one.
    pub fn at(bytes: &'a [u8], place: u32) -> CondNodeView<'a>
        requires { HasCondNode bytes.now place }
        ensures { result ≡ record { place = place; value = condnode_in bytes.now place } }
    {
        CondNodeView { bytes, place }
    }

    /// What the expression was when the policy was written. It has no meaning.
    pub fn state(&self) -> u32
        ensures { result ≡ self.now.value.condition.state }
    {
        self.condition().state()
    }

    /// The condition, with its state.
    pub fn condition(&self) -> ConditionView<'a>
        ensures { result ≡ node_condition self.now }
    {
        ConditionView::at(self.bytes, self.place)
    }

    /// The rules that hold where the condition is true, one behind the other.
    #[tactic(auto, using(crate::proofs::RulePlaces::true_rules_are))]
    pub fn true_rules(&self) -> NestedRecords<'a, Av>
        ensures { result ≡ branch_rules self.now true }
    {
        rules_at(self.bytes, true_count_place(self.bytes, self.place))
    }

    /// The rules that hold where the condition is false, one behind the other. It goes through the true ones.
    #[tactic(auto, using(crate::proofs::RulePlaces::false_rules_are))]
    pub fn false_rules(&self) -> NestedRecords<'a, Av>
        ensures { result ≡ branch_rules self.now false }
    {
        rules_at(self.bytes, false_count_place(self.bytes, self.place))
    }

    /// The rules that hold where the condition is true, or where it is false.
    pub fn rules(&self, branch: bool) -> NestedRecords<'a, Av>
        ensures { result ≡ branch_rules self.now branch }
    {
        if branch {
            self.true_rules()
        } else {
            self.false_rules()
        }
    }

    /// The first boolean of the condition, or then the first reference of the rules, that no record declares, as a fault at
    /// its field.
    #[tactic(auto, using(pol_cursor::proofs::DanglingLists::dangling_none, pol_cursor::proofs::DanglingLists::undeclared_first))]
    pub fn dangling<N: Names>(&self, names: &N) -> Option<Fault>
        ensures { result ≡ dangling_of (N.named names.now) (condnode_references self.now) }
    {
        match self.condition().dangling(names) {
            Some(fault) => Some(fault),
            None => match first_of_rules(self.true_rules(), names) {
                Some(fault) => Some(fault),
                None => first_of_rules(self.false_rules(), names),
            },
        }
    }

    /// The node, owned.
    #[tactic(auto, using(pol_cursor::proofs::PlacedNested::values_placed))]
    pub fn rec(&self, alloc: Global) -> Result<CondNodeRec, AllocError>
        ensures { IfOk result (λ node. node ≡ self.now.value) }
    {
        Ok(CondNodeRec {
            condition: self.condition().rec(alloc)?,
            true_rules: self.true_rules().rec(alloc)?,
            false_rules: self.false_rules().rec(alloc)?,
        })
    }
}

// The first reference of rules that no record declares.
#[tactic(auto, using(pol_cursor::proofs::DanglingLists::dangling_none, pol_cursor::proofs::DanglingLists::undeclared_first))]
fn first_of_rules<N: Names>(rules: NestedRecords<'_, Av>, names: &N) -> Option<Fault>
    ensures { result ≡ dangling_of (N.named names.now) (flat_map av_references rules.entry) }
{
    for rule in rules {
        match rule.dangling(names) {
            Some(fault) => return Some(fault),
            None => {}
        }
    }
    None
}

// The place of the number of rules that hold where the condition at a place is true.
#[tactic(auto, using(pol_expr::proofs::ItemPlaces::length_items_in))]
fn true_count_place(bytes: &[u8], place: u32) -> u32
    requires { HasCondNode bytes.now place }
    ensures { result ≡ true_count_place bytes.now place }
{
    place + 8 + 8 * ConditionView::at(bytes, place).len()
}

// The place of the number of rules that hold where it is false.
fn false_count_place(bytes: &[u8], place: u32) -> u32
    requires { HasCondNode bytes.now place }
    ensures { result ≡ false_count_place bytes.now place }
{
    let count = true_count_place(bytes, place);
    end_of_nested::<Av>(bytes, count + 4, u32_in(bytes, count as usize))
}

// The rules behind their number, which stands at a place.
fn rules_at<'a>(bytes: &'a [u8], place: u32) -> NestedRecords<'a, Av>
    requires stand { HasRules bytes.now place }
    requires size { length bytes.now ≤ MAX_POLICY_BYTES }
    ensures { result ≡ rules_in bytes.now place }
{
    NestedRecords::at(bytes, place + 4, u32_in(bytes, place as usize))
}

/// The conditional node at the cursor, which then stands behind it. Takes no memory.
///
/// The error is the first fault: of the condition, or of a rule as `read_av` says it of one under a condition.
#[tactic(auto, unfolding(crate::specs::CondNodeRecord::condnode_at))]
pub fn read_condnode<'a>(c: &mut Cursor<'a>, version: u32) -> Result<CondNodeView<'a>, Fault>
    ensures exact { Answers (λ node. node.value) result (condnode_at version) c.old c.new }
    ensures stands { IfOk result (λ node. HasCondNode c.old.bytes c.old.place × (node ≡ record { place = c.old.place; value = condnode_in c.old.bytes c.old.place })) }
    ensures next { OnOk result (c.new.place ≡ condnode_end c.old.bytes c.old.place) }
{
    let bytes = c.bytes();
    let place = c.place();
    read_condition(c)?;
    pass_rules(c, version, CONDNODE_NTRUE)?;
    pass_rules(c, version, CONDNODE_NFALSE)?;
    Ok(CondNodeView { bytes, place })
}

// Passes over the rules of a list, behind their number, which has that field.
#[tactic(auto, using(pol_cursor::proofs::Facts::number_is))]
fn pass_rules(c: &mut Cursor<'_>, version: u32, count: Field) -> Result<(), Fault>
    ensures exact { Answers (λ _. values_of (rules_in c.old.bytes c.old.place)) result (counted count (conditional_rules_at version)) c.old c.new }
    ensures stand { OnOk result (HasRules c.old.bytes c.old.place) }
    ensures next { OnOk result (c.new.place ≡ rules_end c.old.bytes c.old.place) }
{
    let n = c.u32(count)?;
    read_nested::<Av>(c, n, &version)?;
    Ok(())
}
