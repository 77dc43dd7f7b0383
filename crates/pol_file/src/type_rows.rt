// The rows of the type map.
ghost use Rattle.std.specs.Prelude.{◌≡◌, ◌<◌, ◌≤◌, ◌-◌, Some, option_map, slice_get, length};
ghost use Rattle.pol_cursor.specs.Outcome.{Yields};
ghost use Rattle.pol_bitmap.specs.Bitmap.{bitmap_at};
ghost use Rattle.pol_bitmap.specs.Nodes.{bitmap_in, HasBitmap};
ghost use Rattle.pol_file.specs.TypeRows.{type_rows_at};

use pol_bitmap::{BitmapView, Set};
use pol_cursor::{Cursor, ReadAfter, ReadError, Record, Records, read_records_after};
use std::alloc::Global;

/// The kind of a row of the type map.
#[derive(Drop)]
pub struct TypeRow;

impl Record for TypeRow {
    type Owned = Set;

    ghost standing = { bitmap_in };

    ghost has = { HasBitmap };
}

impl<'a> ReadAfter<'a> for TypeRow {
    // The number of type values.
    type Context = u32;

    ghost reads = { λ nprim. bitmap_at (Some nprim) };

    ghost after = { λ nprim row. nprim };

    fn pass(c: &mut Cursor<'a>, nprim: u32) -> Result<u32, ReadError> {
        BitmapView::read_below(c, nprim)?;
        Ok(nprim)
    }
}

/// The rows of the type map, that of the type value 1 first. Contracts see the list of them, each with its place.
pub type TypeRows<'a> = Records<'a, TypeRow>;

/// Reads a row for each of so many type values. `MapBitOut` where a row has a bit at or above that number.
#[tactic(auto, unfolding(crate::specs::TypeRows::type_rows_at))]
pub fn read_type_rows<'a>(
    alloc: Global,
    c: &mut Cursor<'a>,
    nprim: u32,
) -> Result<TypeRows<'a>, ReadError>
    ensures { Yields (λ rows. rows) result (type_rows_at nprim) c.old c.new }
{
    let (rows, _) = read_records_after(alloc, c, nprim, nprim)?;
    Ok(rows)
}

/// The row of a type value.
pub fn row_of<'a>(rows: &TypeRows<'a>, value: u32) -> BitmapView<'a>
    requires least { 0 < value }
    requires most { value ≤ length rows.now }
    ensures { option_map (λ row. row.value) (slice_get rows.now (value - 1)) ≡ Some result }
{
    let (bytes, place) = rows.place(value - 1);
    BitmapView::at(bytes, place)
}
