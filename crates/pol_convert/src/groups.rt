//! Groups in place of entries.

ghost use Rattle.std.specs.Prelude.{◌≡◌, ◌≤◌, IfOk, map};
ghost use Rattle.std.specs.List.{All};
ghost use Rattle.pol_convert.specs.Grouped.{data_of, datum_of, group_of, grouped};
ghost use Rattle.pol_convert.specs.Inner.Parts.{shown};

use crate::rows::{CommonKey, rows_by_default, rows_by_part};
use pol_cursor::{ByteList, OwnedList};
use pol_trans::{NameDatumRec, NameGroupRec, NameTransRec};
use set_nodes::set_of_values;
use std::alloc::{AllocError, Global};

/// The groups of entries: one for each name, target and class, with a datum for each default, both in the order in which they are
/// first met. The sources of a datum are those of its entries.
///
/// The time is linear in the entries and their names, as far as hashing is, and for the sources of each datum that of a sort.
pub fn group(alloc: Global, list: &[NameTransRec]) -> Result<Vec<NameGroupRec>, AllocError>
    requires { All (λ entry. 1 ≤ entry.source) list.now }
    ensures { IfOk result (λ groups. groups.items ≡ grouped list.now) }
{
    let (set, rows) = rows_by_part(alloc, list)?;
    let parts = set.as_slice();
    let mut groups = Vec::with_capacity(alloc, rows.len())?;
    for place in 0..rows.len() {
        groups.push(group_of(alloc, &parts[place], rows.row(place))?)?;
    }
    Ok(groups)
}

// The group of entries that have a name, a target and a class.
fn group_of(
    alloc: Global,
    part: &CommonKey<'_>,
    entries: &[&NameTransRec],
) -> Result<NameGroupRec, AllocError>
    requires { All (λ entry. 1 ≤ entry.source) (map (λ entry. entry.now) entries.now) }
    ensures { IfOk result (λ group. group ≡ group_of (shown part.now) (map (λ entry. entry.now) entries.now)) }
{
    let datums = OwnedList::from_vec(data_of(alloc, entries)?);
    Ok(NameGroupRec {
        name: ByteList::copy_of(alloc, part.name)?,
        target: part.target,
        class: part.class,
        datums,
    })
}

// A datum for each default of entries.
fn data_of(alloc: Global, entries: &[&NameTransRec]) -> Result<Vec<NameDatumRec>, AllocError>
    requires { All (λ entry. 1 ≤ entry.source) (map (λ entry. entry.now) entries.now) }
    ensures { IfOk result (λ datums. datums.items ≡ data_of (map (λ entry. entry.now) entries.now)) }
{
    let (set, rows) = rows_by_default(alloc, entries)?;
    let defaults = set.as_slice();
    let mut datums = Vec::with_capacity(alloc, rows.len())?;
    for place in 0..rows.len() {
        datums.push(datum_of(alloc, defaults[place], rows.row(place))?)?;
    }
    Ok(datums)
}

// The datum of entries that have a default.
fn datum_of(
    alloc: Global,
    default: u32,
    entries: &[&NameTransRec],
) -> Result<NameDatumRec, AllocError>
    requires { All (λ entry. 1 ≤ entry.source) (map (λ entry. entry.now) entries.now) }
    ensures { IfOk result (λ datum. datum ≡ datum_of default (map (λ entry. entry.now) entries.now)) }
{
    let mut bits = Vec::with_capacity(alloc, entries.len())?;
    for entry in entries {
        bits.push(entry.source - 1)?;
    }
    let sources = set_of_values(alloc, bits)?;
    Ok(NameDatumRec { sources, default })
}
