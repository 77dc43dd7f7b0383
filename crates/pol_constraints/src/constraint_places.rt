//! Where a constraint ends, and where its items and their parts do.

ghost use Rattle.std.specs.Prelude.{◌≡◌, ◌≤◌, ◌+◌, length};
ghost use Rattle.pol_fields.specs.declared.limits.TheConstants.{MAX_POLICY_BYTES};
ghost use Rattle.pol_bitmap.specs.Nodes.{bitmap_size, HasBitmap};
ghost use Rattle.pol_constraints.specs.ConstraintRecord.{flags_place, type_set_end, item_end, constraint_end, HasTypeSet, HasItem, HasConstraint};

use crate::codes::CEXPR_NAMES;
use crate::constraint_reading::TYPE_SETS;
use pol_bitmap::BitmapView;
use pol_cursor::u32_in;

/// The place behind the constraint of a policy of that version at a place that has one. It goes through the items.
pub fn constraint_end(bytes: &[u8], place: u32, version: u32) -> u32
    requires { HasConstraint version bytes.now place }
    ensures { result ≡ constraint_end version bytes.now place }
{
    let count = u32_in(bytes, place as usize + 4);
    let mut end = place + 8;
    for _ in 0..count {
        end = item_end(bytes, end, version);
    }
    end
}

/// The place behind an item.
#[tactic(auto, unfolding(crate::specs::ConstraintRecord::names_end, crate::specs::ConstraintRecord::sets_end, crate::specs::ConstraintRecord::HasSets))]
pub fn item_end(bytes: &[u8], place: u32, version: u32) -> u32
    requires item { HasItem version bytes.now place }
    requires small { length bytes.now ≤ MAX_POLICY_BYTES }
    ensures { result ≡ item_end version bytes.now place }
{
    if u32_in(bytes, place as usize) != CEXPR_NAMES {
        return place + 12;
    }
    let end = bitmap_end(bytes, place + 12);
    if version < TYPE_SETS {
        end
    } else {
        type_set_end(bytes, end)
    }
}

#[tactic(auto, unfolding(crate::specs::ConstraintRecord::type_set_end, crate::specs::ConstraintRecord::HasTypeSet))]
fn type_set_end(bytes: &[u8], place: u32) -> u32
    requires { HasTypeSet bytes.now place }
    ensures { result ≡ type_set_end bytes.now place }
{
    flags_place(bytes, place) + 4
}

/// The place of a type set's flags, behind its two bitmaps.
#[tactic(auto, unfolding(crate::specs::ConstraintRecord::type_set_end, crate::specs::ConstraintRecord::HasTypeSet))]
pub fn flags_place(bytes: &[u8], place: u32) -> u32
    requires { HasTypeSet bytes.now place }
    ensures exact { result ≡ flags_place bytes.now place }
    ensures within { result + 4 ≤ length bytes.now }
    ensures small { length bytes.now ≤ MAX_POLICY_BYTES }
{
    bitmap_end(bytes, bitmap_end(bytes, place))
}

/// The place behind a bitmap.
#[tactic(auto, using(pol_bitmap::proofs::NodePlaces::length_nodes_in))]
pub fn bitmap_end(bytes: &[u8], place: u32) -> u32
    requires { HasBitmap bytes.now place }
    ensures { result ≡ place + bitmap_size bytes.now place }
{
    place + BitmapView::at(bytes, place).size()
}
