//! Entries in place of groups.

ghost use Rattle.std.specs.Prelude.{◌≡◌, ◌+◌, ◌++◌, ◌-◌, ◌^◌, IfOk, OnOk, length, map, min};
ghost use Rattle.pol_bitmap.specs.Nodes.{bits_of};
ghost use Rattle.pol_bitmap.specs.Sets.{IsSet};
ghost use Rattle.pol_convert.specs.Inner.FoundSources.{found_sources};
ghost use Rattle.pol_convert.specs.Ungrouped.{datum_entries, entries_length, entry_of, group_entries, ungrouped};

use crate::sources::{declared_source, with_sources};
use pol_bitmap::Set;
use pol_cursor::ByteList;
use pol_trans::{NameDatumRec, NameGroupRec, NameTransRec};
use std::alloc::{AllocError, Global};

/// The entries of groups: one for each source that is declared, group by group, datum by datum, the sources of each rising.
///
/// `declared` holds the values that are declared, each as the bit of its number. A source that is none of them gives no entry. The
/// time is linear in the bits of the sources and the entries, times the logarithm of the nodes of `declared`.
pub fn ungroup(
    alloc: Global,
    list: &[NameGroupRec],
    declared: &Set,
) -> Result<Vec<NameTransRec>, AllocError>
    ensures { IfOk result (λ entries. entries.items ≡ ungrouped declared.now list.now) }
{
    // the clause of the nodes says that the bits rise
    let _ = declared.nodes();
    let mut entries = Vec::new(alloc);
    for group in list {
        add_group(alloc, group, declared, &mut entries)?;
    }
    Ok(entries)
}

// Adds the entries of a group.
fn add_group(
    alloc: Global,
    group: &NameGroupRec,
    declared: &Set,
    entries: &mut Vec<NameTransRec>,
) -> Result<(), AllocError>
    requires { IsSet declared.now }
    ensures { OnOk result (entries.new.items ≡ entries.old.items ++ group_entries declared.now group.now) }
{
    for datum in group.datums.as_slice() {
        add_datum(alloc, group, datum, declared, entries)?;
    }
    Ok(())
}

// Adds the entries of a datum.
fn add_datum(
    alloc: Global,
    group: &NameGroupRec,
    datum: &NameDatumRec,
    declared: &Set,
    entries: &mut Vec<NameTransRec>,
) -> Result<(), AllocError>
    requires { IsSet declared.now }
    ensures { OnOk result (entries.new.items ≡ entries.old.items ++ datum_entries declared.now group.now datum.now) }
{
    // the clause of the nodes says that the bits rise
    let _ = datum.sources.nodes();
    add_found(
        alloc,
        group,
        datum.default,
        &datum.sources,
        declared,
        entries,
    )?;
    Ok(())
}

// Adds the entries of the declared sources, bit by bit.
fn add_found(
    alloc: Global,
    group: &NameGroupRec,
    default: u32,
    sources: &Set,
    declared: &Set,
    entries: &mut Vec<NameTransRec>,
) -> Result<(), AllocError>
    requires { IsSet declared.now }
    ensures { OnOk result (entries.new.items ≡ entries.old.items ++ map (entry_of group.now default) (found_sources declared.now (bits_of sources.now))) }
{
    for bit in sources.bits() {
        match declared_source(declared, bit) {
            Some(source) => entries.push(new_entry(alloc, group, default, source)?)?,
            None => {}
        }
    }
    Ok(())
}

// The entry of a source.
fn new_entry(
    alloc: Global,
    group: &NameGroupRec,
    default: u32,
    source: u32,
) -> Result<NameTransRec, AllocError>
    ensures { IfOk result (λ entry. entry ≡ entry_of group.now default source) }
{
    Ok(NameTransRec {
        name: ByteList::copy_of(alloc, group.name.as_slice())?,
        source,
        target: group.target,
        class: group.class,
        default,
    })
}

/// How many bytes the entries that [`ungroup`] gives take in a policy's file, without making any. It stops at the greatest `u64`, where
/// they take more.
pub fn ungrouped_length(list: &[NameGroupRec], declared: &Set) -> u64
    ensures { result ≡ min (entries_length (ungrouped declared.now list.now)) (2 ^ 64 - 1) }
{
    // the clause of the nodes says that the bits rise
    let _ = declared.nodes();
    let mut bytes = 0;
    for group in list {
        bytes = with_group(bytes, group, declared);
    }
    bytes
}

// A number of bytes and those of the entries of a group, up to the greatest number.
fn with_group(start: u64, group: &NameGroupRec, declared: &Set) -> u64
    requires { IsSet declared.now }
    ensures { result ≡ min (start + entries_length (group_entries declared.now group.now)) (2 ^ 64 - 1) }
{
    let each = 20 + group.name.as_slice().len() as u64;
    start.saturating_add(each.saturating_mul(entry_count(group, declared)))
}

// How many entries a group gives, up to the greatest number.
fn entry_count(group: &NameGroupRec, declared: &Set) -> u64
    requires { IsSet declared.now }
    ensures { result ≡ min (length (group_entries declared.now group.now)) (2 ^ 64 - 1) }
{
    let mut count = 0;
    for datum in group.datums.as_slice() {
        count = with_sources(count, &datum.sources, declared);
    }
    count
}
