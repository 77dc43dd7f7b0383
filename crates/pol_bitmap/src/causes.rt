//! The conditions on the fields of a bitmap. Each gives the cause that refuses a value, or `None`.

ghost use Rattle.std.specs.Prelude.{◌≡◌, ◌≤◌, ◌+◌, ◌%◌, ◌<◌, IfNone};
ghost use Rattle.pol_bitmap.specs.Bitmap.{unit_test, highbit_test, count_test, start_test, map_test};

use crate::node::{Node, next_in};
use pol_fields::Cause;

/// The size of a map in bits.
pub fn unit_cause(unit: u32) -> Option<Cause>
    ensures { result ≡ unit_test unit }
{
    if unit == 64 {
        None
    } else {
        Some(Cause::BadMapUnit)
    }
}

/// The bit after the last node.
pub fn highbit_cause(highbit: u32) -> Option<Cause>
    ensures { result ≡ highbit_test highbit }
{
    if highbit % 64 == 0 {
        None
    } else {
        Some(Cause::BadHighbit)
    }
}

/// The number of nodes.
pub fn count_cause(highbit: u32, count: u32) -> Option<Cause>
    ensures { result ≡ count_test highbit count }
{
    if (count == 0) == (highbit == 0) {
        None
    } else {
        Some(Cause::BadCount)
    }
}

/// The start of a node, at or above the floor.
pub fn start_cause(highbit: u32, floor: u32, is_last: bool, start: u32) -> Option<Cause>
    ensures exact { result ≡ start_test highbit floor is_last start }
    ensures fits { IfNone result ((start % 64 ≡ 0) × (floor ≤ start) × (start + 64 ≤ highbit)) }
{
    let end = start as u64 + 64;
    let ends = if is_last {
        end == highbit as u64
    } else {
        end <= highbit as u64
    };
    if start % 64 == 0 && start >= floor && ends {
        None
    } else {
        Some(Cause::BadStart)
    }
}

/// The map of a node with that start, whose bits have a limit or none.
pub fn map_cause(limit: Option<u32>, start: u32, map: u64) -> Option<Cause>
    requires { start % 64 ≡ 0 }
    ensures exact { result ≡ map_test limit start map }
    ensures full { IfNone result (0 < map) }
{
    if map == 0 {
        return Some(Cause::ZeroMap);
    }
    match limit {
        None => None,
        Some(limit) => match next_in(Node { start, map }, limit) {
            None => None,
            Some(_) => Some(Cause::MapBitOut),
        },
    }
}
