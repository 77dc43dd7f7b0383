// Entries in rows: by what the transitions of a group have in common, and by their defaults.
ghost use Rattle.std.specs.Prelude.{◌≡◌, ◌≤◌, ◌<◌, ◌==◌, [], IfOk, OnOk, get_or, length, map};
ghost use Rattle.pol_convert.specs.Grouped.{part_of_entry, same_part};
ghost use Rattle.pol_convert.specs.Inner.GroupRows.{with_row, AreInRows};
ghost use Rattle.pol_convert.specs.Inner.Parts.{shown};

use indexmap::IndexSet;
use pol_trans::NameTransRec;
use std::alloc::{AllocError, Global};
use std::marker::Model;

/// What the transitions of a group have in common.
#[derive(Clone, Copy, PartialEq, Eq, Hash)]
pub struct CommonKey<'a> {
    pub name: &'a [u8],
    pub target: u32,
    pub class: u32,
}

/// Entries in rows. Contracts see the list of the rows.
#[derive(Drop)]
pub struct Rows<'a> {
    rows: Vec<Vec<&'a NameTransRec>>,
}

impl<'a> Model for Rows<'a> {
    ghost use Rattle.std.specs.Prelude.{List, map};
    ghost use Rattle.pol_trans.specs.declared.name_trans_rec.NameTransRec.{NameTransRec};

    ghost Value = { List (List NameTransRec) };

    ghost view = { λ r. map (λ row. map (λ entry. entry.now) row.items) r.rows.items };
}

impl<'a> Rows<'a> {
    /// No row.
    pub fn new(alloc: Global) -> Rows<'a>
        ensures { result ≡ [] }
    {
        Rows {
            rows: Vec::new(alloc),
        }
    }

    /// How many rows there are.
    pub fn len(&self) -> usize
        ensures { result ≡ length self.now }
    {
        self.rows.len()
    }

    /// The row of a place.
    pub fn row(&self, place: usize) -> &[&'a NameTransRec]
        requires { place < length self.now }
        ensures { map (λ entry. entry.now) result.now ≡ get_or self.now place [] }
    {
        self.rows[place].as_slice()
    }

    /// Adds an entry to the row of a place, or as a new row at the end.
    pub fn add(
        &mut self,
        alloc: Global,
        place: usize,
        entry: &'a NameTransRec,
    ) -> Result<(), AllocError>
        requires { place ≤ length self.old }
        ensures { OnOk result (self.new ≡ with_row place self.old entry.now) }
    {
        if place < self.rows.len() {
            self.rows[place].push(entry)?;
            return Ok(());
        }
        let mut row = Vec::new(alloc);
        row.push(entry)?;
        self.rows.push(row)?;
        Ok(())
    }
}

/// The entries by what they have in common, in the order in which that is first met.
pub fn rows_by_part<'a>(
    alloc: Global,
    list: &'a [NameTransRec],
) -> Result<(IndexSet<CommonKey<'a>>, Rows<'a>), AllocError>
    ensures { IfOk result (λ r. AreInRows same_part part_of_entry (map shown r.0.keys) r.1 list.now) }
{
    let mut parts = IndexSet::new(alloc);
    let mut rows = Rows::new(alloc);
    for entry in list {
        let (place, _) = parts.insert_full(part_of(entry))?;
        rows.add(alloc, place, entry)?;
    }
    Ok((parts, rows))
}

// What an entry has in common with those of its group.
fn part_of<'a>(entry: &'a NameTransRec) -> CommonKey<'a>
    ensures { shown result ≡ part_of_entry entry.now }
{
    CommonKey {
        name: entry.name.as_slice(),
        target: entry.target,
        class: entry.class,
    }
}

/// The entries by their defaults, in the order in which these are first met.
pub fn rows_by_default<'a>(
    alloc: Global,
    list: &[&'a NameTransRec],
) -> Result<(IndexSet<u32>, Rows<'a>), AllocError>
    ensures { IfOk result (λ r. AreInRows ◌==◌ (λ entry. entry.default) r.0.keys r.1 (map (λ entry. entry.now) list.now)) }
{
    let mut defaults = IndexSet::new(alloc);
    let mut rows = Rows::new(alloc);
    for entry in list {
        let (place, _) = defaults.insert_full(entry.default)?;
        rows.add(alloc, place, *entry)?;
    }
    Ok((defaults, rows))
}
