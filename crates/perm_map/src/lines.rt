// What each kind of line says.
ghost use Rattle.std.specs.Prelude.{◌≡◌};
ghost use Rattle.std.specs.Result.{result_map_both};
ghost use Rattle.perm_map.specs.MapFields.{class_in, count_in, permission_in};
ghost use Rattle.text_rows.specs.TextLines.{fields_in};

use crate::direction::Direction;
use crate::fields::three_fields;
use crate::map_fault::MapCause;
use crate::numbers::{direction_in, number_in, weight_in};
use text_rows::{first_field, is_word};

/// The line of a class: its name, and how many lines of permissions follow.
#[derive(Clone, Copy)]
pub struct ClassLine<'a> {
    pub name: &'a [u8],
    pub count: u32,
}

/// The line of a permission.
#[derive(Clone, Copy)]
pub struct PermissionLine<'a> {
    pub name: &'a [u8],
    pub direction: Direction,
    pub weight: u8,
}

/// The count of classes, alone in its line.
pub fn count_line(text: &[u8]) -> Result<u32, MapCause>
    ensures { result ≡ count_in (fields_in text.now) }
{
    let Some((count, rest)) = first_field(text) else {
        return Err(MapCause::BadFields);
    };
    if first_field(rest).is_some() {
        return Err(MapCause::BadFields);
    }
    match number_in(count) {
        Some(number) => Ok(number),
        None => Err(MapCause::BadNumber),
    }
}

/// A line `class NAME COUNT`.
pub fn class_line(text: &[u8]) -> Result<ClassLine<'_>, MapCause>
    ensures { result_map_both (λ line. record { name = line.name.now; count = line.count }) (λ cause. cause) result ≡ class_in (fields_in text.now) }
{
    let Some(fields) = three_fields(text) else {
        return Err(MapCause::BadFields);
    };
    if fields.first != b"class".as_slice() {
        return Err(MapCause::BadFields);
    }
    if !is_word(fields.second) {
        return Err(MapCause::BadName);
    }
    match number_in(fields.third) {
        Some(count) => Ok(ClassLine {
            name: fields.second,
            count,
        }),
        None => Err(MapCause::BadNumber),
    }
}

/// A line `NAME DIRECTION WEIGHT`.
pub fn permission_line(text: &[u8]) -> Result<PermissionLine<'_>, MapCause>
    ensures { result_map_both (λ line. record { name = line.name.now; direction = line.direction; weight = line.weight }) (λ cause. cause) result ≡ permission_in (fields_in text.now) }
{
    let Some(fields) = three_fields(text) else {
        return Err(MapCause::BadFields);
    };
    if !is_word(fields.first) {
        return Err(MapCause::BadName);
    }
    let Some(direction) = direction_in(fields.second) else {
        return Err(MapCause::BadDirection);
    };
    match weight_in(fields.third) {
        Some(weight) => Ok(PermissionLine {
            name: fields.first,
            direction,
            weight,
        }),
        None => Err(MapCause::BadWeight),
    }
}
