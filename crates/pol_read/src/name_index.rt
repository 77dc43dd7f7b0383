// The sources of groups of file-name transitions, by which a rule of theirs is found by its number.
ghost use Rattle.std.specs.Prelude.{◌≡◌, ◌+◌, ◌≤◌, ◌<◌, ◌%◌, [], IfOk, OnOk, Some, length, sum, map, option_map, slice_get};
ghost use Rattle.std.specs.List.{flat_map};
ghost use Rattle.pol_read.specs.StoredRules.{rules_of_datum, rules_of_group, name_rules};
ghost use Rattle.pol_read.specs.Inner.RuleNumbers.{place_of, nodes_of_datum, nodes_of_group, with_rules, rule_nodes, IsNameIndexOf, HasNodes, Gains};

use crate::declared_value::count_values;
use crate::sums::Sums;
use pol_bitmap::Node;
use pol_cursor::RecordView;
use pol_symbols::Symbols;
use pol_trans::{NameDatum, NameDatumView, NameGroupList, NameGroupView, NameTrans};
use std::alloc::{AllocError, Global};

/// Where a node of the sources of a datum stands: the number of its group, the place of the datum's first byte, and its own
/// number, both numbers from 0 on.
#[derive(Clone, Copy)]
pub struct NodePlace {
    pub(crate) group: u32,
    pub(crate) datum: u32,
    pub(crate) node: u32,
}

/// The nodes of sources that have rules, of all data of all groups one after the other: how many rules each has, and where it
/// stands. None where the transitions are no groups.
pub struct NameIndex {
    pub(crate) lengths: Sums,
    pub(crate) places: Vec<NodePlace>,
}

// Its parts go in one call, wherever it is dropped.
impl Drop for NameIndex {
    fn drop(self) {
        let NameIndex { lengths, places } = self;
    }
}

/// Counts the rules of each node of sources, where the file-name transitions are groups.
pub fn index_names(
    alloc: Global,
    symbols: &Symbols<'_>,
    transitions: &NameTrans<'_>,
) -> Result<NameIndex, AllocError>
    requires { length (name_rules symbols.now transitions.now) ≤ 400000000 }
    ensures { IfOk result (λ index. IsNameIndexOf symbols.now transitions.now index) }
{
    match transitions {
        NameTrans::Entries(_) => Ok(empty(alloc)),
        NameTrans::Groups(groups) => index_groups(alloc, symbols, groups),
    }
}

// No nodes.
fn empty(alloc: Global) -> NameIndex
    ensures lengths { result.lengths ≡ [] }
    ensures places { result.places.items ≡ [] }
{
    NameIndex {
        lengths: Sums::new(alloc),
        places: Vec::new(alloc),
    }
}

fn index_groups(
    alloc: Global,
    symbols: &Symbols<'_>,
    groups: &NameGroupList<'_>,
) -> Result<NameIndex, AllocError>
    requires { length (flat_map (rules_of_group symbols.now) groups.now) ≤ 400000000 }
    ensures { IfOk result (λ index. HasNodes symbols.now (rule_nodes symbols.now groups.now) index) }
{
    let mut index = empty(alloc);
    for i in 0..groups.len() {
        index_group(symbols, &groups.view(i), i, &mut index)?;
    }
    Ok(index)
}

// Adds the nodes of the group of that number.
fn index_group(
    symbols: &Symbols<'_>,
    group: &NameGroupView<'_>,
    number: u32,
    index: &mut NameIndex,
) -> Result<(), AllocError>
    requires limit { sum index.old.lengths + length (rules_of_group symbols.now group.now) ≤ 400000000 }
    requires few { length index.old.lengths ≤ sum index.old.lengths }
    ensures gains { OnOk result (Gains symbols.now index.old index.new (with_rules symbols.now (nodes_of_group (number, group.now)))) }
    ensures few { OnOk result (length index.new.lengths ≤ sum index.new.lengths) }
{
    for datum in group.data() {
        index_datum(symbols, group, number, &datum, index)?;
    }
    Ok(())
}

// Adds the nodes of a datum of it.
fn index_datum(
    symbols: &Symbols<'_>,
    group: &NameGroupView<'_>,
    number: u32,
    datum: &NameDatumView<'_>,
    index: &mut NameIndex,
) -> Result<(), AllocError>
    requires limit { sum index.old.lengths + length (rules_of_datum symbols.now group.now.value datum.now.value) ≤ 400000000 }
    requires few { length index.old.lengths ≤ sum index.old.lengths }
    ensures gains { OnOk result (Gains symbols.now index.old index.new (with_rules symbols.now (nodes_of_datum (number, group.now) datum.now))) }
    ensures few { OnOk result (length index.new.lengths ≤ sum index.new.lengths) }
{
    let sources = datum.sources();
    for i in 0..sources.node_count() {
        let count = count_values(symbols, sources.node(i));
        if count > 0 {
            index.lengths.push(count)?;
            index.places.push(NodePlace {
                group: number,
                datum: datum.place(),
                node: i,
            })?;
        }
    }
    Ok(())
}

/// The node of that number among those that have rules, and its datum and group.
pub fn node_at<'a>(
    symbols: &Symbols<'_>,
    groups: &NameGroupList<'a>,
    places: &[NodePlace],
    n: u32,
) -> (NameGroupView<'a>, NameDatumView<'a>, Node)
    requires places { places.now ≡ map place_of (rule_nodes symbols.now groups.now) }
    requires node { n < length places.now }
    ensures group { option_map (λ at. at.group.1) (slice_get (rule_nodes symbols.now groups.now) n) ≡ Some result.0 }
    ensures datum { option_map (λ at. at.datum) (slice_get (rule_nodes symbols.now groups.now) n) ≡ Some result.1 }
    ensures node { option_map (λ at. at.node.1) (slice_get (rule_nodes symbols.now groups.now) n) ≡ Some result.2 }
    ensures whole { result.2.start % 64 ≡ 0 }
{
    let at = places[n as usize];
    let (bytes, _) = groups.place(at.group);
    let datum = NameDatum::at(bytes, at.datum);
    let node = datum.sources().node(at.node);
    (groups.view(at.group), datum, node)
}
