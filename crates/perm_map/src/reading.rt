// The lines of each kind, one after the other.
ghost use Rattle.std.specs.Prelude.{◌≡◌, Ok, Err, MatchResult};
ghost use Rattle.perm_map.specs.MapFields.{class_in, count_in, permission_in};
ghost use Rattle.perm_map.specs.Inner.MapReading.{Takes};
ghost use Rattle.perm_map.specs.Inner.RowViews.{class_line_of, permission_line_of, RowComes};

use crate::lines::{ClassLine, PermissionLine, class_line, count_line, permission_line};
use crate::map_fault::{MapCause, MapFault};
use text_rows::{Row, Rows};

// The next line, where one has to come.
fn next_row<'a>(rows: &mut Rows<'a>) -> Result<Row<'a>, MapFault>
    ensures { RowComes rows.old rows.new result }
{
    match rows.next() {
        Ok(row) => Ok(row),
        Err(past) => Err(MapFault {
            line: past,
            cause: MapCause::Missing,
        }),
    }
}

// What the line of that number says, or its fault.
fn in_row<T>(line: u32, said: Result<T, MapCause>) -> Result<T, MapFault>
    ensures { MatchResult said (λ it. result ≡ Ok it) (λ cause. result ≡ Err (record { line = line; cause = cause })) }
{
    match said {
        Ok(it) => Ok(it),
        Err(cause) => Err(MapFault { line, cause }),
    }
}

/// Takes the line of the count of classes.
pub fn next_count(rows: &mut Rows<'_>) -> Result<u32, MapFault>
    ensures { Takes count_in (λ count. count) rows.old rows.new result }
{
    let row = next_row(rows)?;
    in_row(row.number, count_line(row.text))
}

/// Takes the line of a class.
pub fn next_class<'a>(rows: &mut Rows<'a>) -> Result<ClassLine<'a>, MapFault>
    ensures { Takes class_in class_line_of rows.old rows.new result }
{
    let row = next_row(rows)?;
    in_row(row.number, class_line(row.text))
}

/// Takes the line of a permission.
pub fn next_permission<'a>(rows: &mut Rows<'a>) -> Result<PermissionLine<'a>, MapFault>
    ensures { Takes permission_in permission_line_of rows.old rows.new result }
{
    let row = next_row(rows)?;
    in_row(row.number, permission_line(row.text))
}
