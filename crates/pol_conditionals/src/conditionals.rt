//! The conditional nodes of a policy, and how they are read.

ghost use Rattle.std.specs.Prelude.{◌≡◌, ◌<◌, ◌^◌, Some, IfOk, OnOk, length, map, option_map, slice_get};
ghost use Rattle.pol_cursor.specs.Outcome.{Yields};
ghost use Rattle.pol_conditionals.specs.CondNodeRecord.{condnode_at, condnode_in, HasCondNode, node_condition, branch_rules, rules_of_branch, condnode_references};
ghost use Rattle.pol_conditionals.specs.CondNodeList.{conditionals_at};
ghost use Rattle.pol_conditionals.specs.Inner.PlaceGroups.{places_of};

use crate::condnode_rec::CondNodeRec;
use crate::condnode_view::{CondNodeView, read_condnode};
use crate::place_groups::PlaceGroups;
use pol_avtab::AvView;
use pol_cursor::{
    Copied, Cursor, Names, ReadAfter, ReadError, Record, RecordView, Records, Referring,
    read_records_after,
};
use pol_expr::ConditionView;
use pol_fields::Fault;
use pol_fields::fields::CONDLIST_COUNT;
use std::alloc::{AllocError, Global};
use std::marker::Model;

/// The kind of conditional nodes, which are read under the version.
#[derive(Drop)]
pub struct CondNode;

impl Record for CondNode {
    type Owned = CondNodeRec;

    ghost standing = { condnode_in };

    ghost has = { HasCondNode };
}

impl<'a> RecordView<'a> for CondNode {
    type View = CondNodeView<'a>;

    ghost shown = { λ v. v };

    fn at(bytes: &'a [u8], place: u32) -> CondNodeView<'a> {
        CondNodeView::at(bytes, place)
    }
}

impl<'a> Copied<'a> for CondNode {
    fn rec(view: &Self::View, alloc: Global) -> Result<Self::Owned, AllocError> {
        view.rec(alloc)
    }
}

impl<'a> Referring<'a> for CondNode {
    ghost references = { condnode_references };

    fn dangling<N: Names>(view: &Self::View, names: &N) -> Option<Fault> {
        view.dangling(names)
    }
}

impl<'a> ReadAfter<'a> for CondNode {
    type Context = u32;

    ghost reads = { condnode_at };

    ghost after = { λ version _. version };

    fn pass(c: &mut Cursor<'a>, version: u32) -> Result<u32, ReadError>
        ensures exact { Yields (λ _. condnode_in c.old.bytes c.old.place) result (condnode_at version) c.old c.new }
        ensures stands { OnOk result (HasCondNode c.old.bytes c.old.place) }
        ensures after { IfOk result (λ version_new. version_new ≡ version) }
    {
        read_condnode(c, version)?;
        Ok(version)
    }
}

/// The conditional nodes. Contracts see the list of them, each with its place. Besides the places of the nodes it keeps those
/// of their rules, so that each rule is found at once.
pub struct Conditionals<'a> {
    nodes: Records<'a, CondNode>,
    true_places: PlaceGroups,
    false_places: PlaceGroups,
}

// Its parts go in one call, wherever it is dropped.
impl Drop for Conditionals<'_> {
    fn drop(self) {
        let Conditionals {
            nodes,
            true_places,
            false_places,
        } = self;
    }
}

impl<'a> Model for Conditionals<'a> {
    ghost use Rattle.std.specs.Prelude.{◌≡◌, List, map, true, false};
    ghost use Rattle.pol_cursor.specs.References.{Placed};
    ghost use Rattle.pol_conditionals.specs.declared.condnode_rec.CondNodeRec.{CondNodeRec};
    ghost use Rattle.pol_conditionals.specs.CondNodeRecord.{branch_rules};
    ghost use Rattle.pol_conditionals.specs.Inner.PlaceGroups.{places_of};

    ghost Value = { List (Placed CondNodeRec) };

    ghost view = { λ c. c.nodes };

    ghost invariant = { λ c. (c.true_places ≡ map (λ node. places_of (branch_rules node true)) c.nodes) × (c.false_places ≡ map (λ node. places_of (branch_rules node false)) c.nodes) };
}

impl<'a> Conditionals<'a> {
    /// How many nodes there are.
    pub fn len(&self) -> u32
        ensures { result ≡ length self.now }
    {
        self.nodes.len()
    }

    /// The node of that number, from 0 on.
    pub fn view(&self, node: u32) -> CondNodeView<'a>
        requires { node < length self.now }
        ensures { slice_get self.now node ≡ Some result }
    {
        self.nodes.view(node)
    }

    /// The condition of the node of that number, from 0 on.
    pub fn condition(&self, node: u32) -> ConditionView<'a>
        requires { node < length self.now }
        ensures { option_map node_condition (slice_get self.now node) ≡ Some result }
    {
        self.view(node).condition()
    }

    /// How many rules hold where the condition of a node is true, or where it is false.
    pub fn branch_len(&self, node: u32, branch: bool) -> u32
        requires { node < length self.now }
        ensures { result ≡ length (rules_of_branch self.now node branch) }
    {
        self.places(node, branch).len() as u32
    }

    /// The rule of that number, from 0 on, of those that hold where the condition of a node is true, or where it is false.
    pub fn branch_view(&self, node: u32, branch: bool, i: u32) -> AvView<'a>
        requires node { node < length self.now }
        requires rule { i < length (rules_of_branch self.now node branch) }
        ensures { slice_get (rules_of_branch self.now node branch) i ≡ Some result }
    {
        let (bytes, _) = self.nodes.place(node);
        AvView::at(bytes, self.places(node, branch)[i as usize])
    }

    // The places of those rules.
    fn places(&self, node: u32, branch: bool) -> &[u32]
        requires { node < length self.now }
        ensures are { result.now ≡ places_of (rules_of_branch self.now node branch) }
        ensures short { length result.now < 2 ^ 32 }
    {
        if branch {
            self.true_places.group(node)
        } else {
            self.false_places.group(node)
        }
    }
}

/// Reads the list of conditional nodes. Nothing is reserved by the numbers that the policy claims.
///
/// The error is the first fault: `Short`, or one of `read_condnode`.
#[tactic(auto, unfolding(crate::specs::CondNodeList::conditionals_at), using(crate::proofs::CondNodeLaws::records_alone))]
pub fn read_conditionals<'a>(
    alloc: Global,
    c: &mut Cursor<'a>,
    version: u32,
) -> Result<Conditionals<'a>, ReadError>
    ensures { Yields (λ nodes. nodes) result (conditionals_at version) c.old c.new }
{
    let n = c.u32(CONDLIST_COUNT)?;
    let (nodes, _) = read_records_after::<CondNode>(alloc, c, n, version)?;
    Ok(Conditionals {
        true_places: places_of_rules(alloc, &nodes, true)?,
        false_places: places_of_rules(alloc, &nodes, false)?,
        nodes,
    })
}

// The places of the rules of nodes.
fn places_of_rules(
    alloc: Global,
    nodes: &Records<'_, CondNode>,
    branch: bool,
) -> Result<PlaceGroups, AllocError>
    ensures { IfOk result (λ groups. groups ≡ map (λ node. places_of (branch_rules node branch)) nodes.now) }
{
    let mut groups = PlaceGroups::new(alloc);
    for i in 0..nodes.len() {
        groups.push(nodes.view(i).rules(branch))?;
    }
    Ok(groups)
}
