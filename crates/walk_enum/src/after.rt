// One node after another in a row.
ghost use Rattle.std.specs.Prelude.{◌≡◌, Contains, IfSome, IfNone};
ghost use Rattle.std.specs.List.Sorted.{IsStrictlyIncreasing};
ghost use Rattle.walk_enum.specs.Inner.Turns.{Follows, IsLast};

/// The node after a node of a row.
pub fn node_after(row: &[u32], node: u32) -> Option<u32>
    requires rising { IsStrictlyIncreasing row.now }
    requires there { Contains row.now node }
    ensures some { IfSome result (Follows row.now node) }
    ensures none { IfNone result (IsLast row.now node) }
{
    let place = row.partition_point(|other| *other <= node);
    if place < row.len() {
        Some(row[place])
    } else {
        None
    }
}
