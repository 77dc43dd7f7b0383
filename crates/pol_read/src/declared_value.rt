// Values of types by the bits that stand for them.
ghost use Rattle.std.specs.Prelude.{◌≡◌, ◌+◌, ◌<◌, ◌%◌, Some, None, length, slice_get, if◌then◌else◌};
ghost use Rattle.pol_bitmap.specs.Nodes.{node_bits};
ghost use Rattle.pol_read.specs.StoredRules.{is_declared_type, declared_values};

use pol_bitmap::{Node, split_lowest};
use pol_fields::TableKind;
use pol_symbols::Symbols;

// The type value that a bit stands for, where a primary record declares it.
#[tactic(auto, using(crate::proofs::RuleSums::declared_by_value))]
fn declared_value(symbols: &Symbols<'_>, bit: u32) -> Option<u32>
    ensures { result ≡ (if is_declared_type symbols.now (bit + 1) then Some (bit + 1) else None) }
{
    let value = bit.checked_add(1)?;
    match symbols.by_value(TableKind::Types, value) {
        Some(_) => Some(value),
        None => None,
    }
}

/// How many declared values the bits of a node stand for.
pub fn count_values(symbols: &Symbols<'_>, node: Node) -> u32
    requires { node.start % 64 ≡ 0 }
    ensures { result ≡ length (declared_values symbols.now (node_bits node)) }
{
    let mut left = node;
    let mut count = 0;
    while left.map != 0 {
        let (bit, rest) = split_lowest(left);
        match declared_value(symbols, bit) {
            None => {}
            Some(_) => count += 1,
        }
        left = rest;
    }
    count
}

/// The declared value of that number among those that the bits of a node stand for.
pub fn value_at(symbols: &Symbols<'_>, node: Node, n: u32) -> u32
    requires whole { node.start % 64 ≡ 0 }
    requires value { n < length (declared_values symbols.now (node_bits node)) }
    ensures { slice_get (declared_values symbols.now (node_bits node)) n ≡ Some result }
{
    let mut left = node;
    let mut before = n;
    while left.map != 0 {
        let (bit, rest) = split_lowest(left);
        match declared_value(symbols, bit) {
            None => {}
            Some(value) => {
                if before == 0 {
                    return value;
                }
                before -= 1;
            }
        }
        left = rest;
    }
    unreachable!()
}
