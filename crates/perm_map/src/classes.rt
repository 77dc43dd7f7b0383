// The classes of a map with their permissions.
ghost use Rattle.perm_map.specs.PermissionMap.{class_at, classes_at, permission_at, times};
ghost use Rattle.perm_map.specs.Inner.MapReading.{Reads};

use crate::map::PermMap;
use crate::map_fault::MapError;
use crate::reading::{next_class, next_count, next_permission};
use text_rows::Rows;

// Reads the line of a permission of a class.
fn read_permission<'a>(
    rows: &mut Rows<'a>,
    class: &'a [u8],
    map: &mut PermMap<'a>,
) -> Result<(), MapError>
    ensures { Reads (permission_at rows.old.past class.now) rows.old rows.new map.old map.new result }
{
    let line = next_permission(rows)?;
    map.add(class, line)?;
    Ok(())
}

// Reads so many lines of permissions of a class.
fn read_permissions<'a>(
    rows: &mut Rows<'a>,
    class: &'a [u8],
    count: u32,
    map: &mut PermMap<'a>,
) -> Result<(), MapError>
    ensures { Reads (times count (permission_at rows.old.past class.now)) rows.old rows.new map.old map.new result }
{
    for _ in 0..count {
        read_permission(rows, class, map)?;
    }
    Ok(())
}

// Reads the line of a class and those of its permissions.
fn read_class<'a>(rows: &mut Rows<'a>, map: &mut PermMap<'a>) -> Result<(), MapError>
    ensures { Reads (class_at rows.old.past) rows.old rows.new map.old map.new result }
{
    let class = next_class(rows)?;
    read_permissions(rows, class.name, class.count, map)
}

// Reads so many classes.
fn read_each_class<'a>(
    rows: &mut Rows<'a>,
    count: u32,
    map: &mut PermMap<'a>,
) -> Result<(), MapError>
    ensures { Reads (times count (class_at rows.old.past)) rows.old rows.new map.old map.new result }
{
    for _ in 0..count {
        read_class(rows, map)?;
    }
    Ok(())
}

/// Reads the count of classes, and so many classes.
pub fn read_classes<'a>(rows: &mut Rows<'a>, map: &mut PermMap<'a>) -> Result<(), MapError>
    ensures { Reads (classes_at rows.old.past) rows.old rows.new map.old map.new result }
{
    let count = next_count(rows)?;
    read_each_class(rows, count, map)
}
