//! The names of a table in the order of their bytes.

ghost use Rattle.std.specs.Prelude.{◌≡◌, ◌<◌, ◌^◌, IfOk, length, map};
ghost use Rattle.std.specs.List.{All};
ghost use Rattle.pol_symtab.specs.Inner.NamePrefixes.{HasPrefix};
ghost use Rattle.pol_symtab.specs.SymbolTables.{index_named};
ghost use Rattle.pol_symtab.specs.Inner.Namings.{its_name, is_its_primary, naming};
ghost use Rattle.pol_symtab.specs.Inner.TableIndex.{names_of, IsNameOrder, HaveDistinctNames, seen, numbered, NamesRise, AreSorted, AreNumbered, RankAll};

use crate::name_prefix::prefix_of;
use crate::symbol_names::SymbolName;
use std::alloc::{AllocError, Global};
use std::cmp::Ordering;

/// The name of a record, its number in the list, and whether it is primary. Names are compared by their first bytes as one
/// number, and further only where these are the same.
#[derive(Clone, Copy, PartialEq, Eq, PartialOrd, Ord)]
pub(crate) struct Entry<'a> {
    prefix: u64,
    name: &'a [u8],
    number: u32,
    primary: bool,
}

/// Names in the order of their bytes.
pub(crate) fn sorted_entries<'a>(
    alloc: Global,
    names: &[SymbolName<'a>],
) -> Result<Vec<Entry<'a>>, AllocError>
    requires few { length names.now < 2 ^ 32 }
    requires distinct { HaveDistinctNames its_name (map naming names.now) }
    ensures sorted { IfOk result (λ entries. AreSorted its_name is_its_primary (map naming names.now) (map seen entries.items)) }
    ensures few { IfOk result (λ entries. length entries.items < 2 ^ 32) }
{
    let mut entries = entries_of(alloc, names)?;
    entries.sort()?;
    Ok(entries)
}

// Names in the order of the list.
fn entries_of<'a>(alloc: Global, names: &[SymbolName<'a>]) -> Result<Vec<Entry<'a>>, AllocError>
    requires { length names.now < 2 ^ 32 }
    ensures same { IfOk result (λ entries. map seen entries.items ≡ numbered its_name is_its_primary 0 (map naming names.now)) }
    ensures prefixes { IfOk result (λ entries. All HasPrefix entries.items) }
    ensures few { IfOk result (λ entries. length entries.items < 2 ^ 32) }
{
    let mut entries = Vec::with_capacity(alloc, names.len())?;
    for number in 0..names.len() as u32 {
        let symbol = &names[number as usize];
        entries.push(Entry {
            prefix: prefix_of(symbol.name),
            name: symbol.name,
            number,
            primary: symbol.primary,
        })?;
    }
    Ok(entries)
}

/// The numbers of the records, in the order of their names.
pub(crate) fn numbers_of(alloc: Global, entries: &[Entry<'_>]) -> Result<Vec<u32>, AllocError>
    ensures { IfOk result (λ numbers. numbers.items ≡ map (λ entry. entry.number) entries.now) }
{
    entries.iter().map(|entry| entry.number).collect(alloc)
}

/// By the number of a record: how many primary names are below its own.
pub(crate) fn rank_names(alloc: Global, entries: &[Entry<'_>]) -> Result<Vec<u32>, AllocError>
    requires rise { NamesRise (map seen entries.now) }
    requires numbered { AreNumbered (map seen entries.now) }
    requires few { length entries.now < 2 ^ 32 }
    ensures { IfOk result (λ ranks. RankAll (map seen entries.now) ranks.items) }
{
    let mut ranks = Vec::new(alloc);
    ranks.resize(entries.len(), 0)?;
    let mut below: u32 = 0;
    for entry in entries {
        ranks[entry.number as usize] = below;
        if entry.primary {
            below += 1;
        }
    }
    Ok(ranks)
}

/// The number of a name, by halving the numbers in the order of the names.
pub(crate) fn find_name(names: &[SymbolName<'_>], by_name: &[u32], name: &[u8]) -> Option<u32>
    requires { IsNameOrder (names_of its_name (map naming names.now)) by_name.now }
    ensures { result ≡ index_named its_name (map naming names.now) name.now }
{
    let mut low = 0;
    let mut high = by_name.len();
    while low < high {
        let middle = low + (high - low) / 2;
        let number = by_name[middle];
        match names[number as usize].name.cmp(name) {
            Ordering::Less => low = middle + 1,
            Ordering::Equal => return Some(number),
            Ordering::Greater => high = middle,
        }
    }
    None
}
