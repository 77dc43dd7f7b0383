//! The parts of entries, which are compared.

ghost use Rattle.std.specs.Prelude.{◌≡◌, ◌∷◌, [], ◌++◌, OnOk};
ghost use Rattle.std.specs.Cmp.Lexicographic.{pointwise};
ghost use Rattle.diff_entries.specs.Parts.{same_names, same_part, same_parts, same_value};

use crate::keys::Text;
use crate::names::NameSet;
use std::alloc::{AllocError, Global};
use std::marker::Model;

/// What a part is called where its change is told.
#[derive(Clone, Copy, Debug, PartialEq, Eq)]
pub enum Label {
    Unnamed,
    Alias,
    Attributes,
    Types,
    Roles,
    Level,
    Range,
    Context,
    Packet,
}

/// What is compared of a text, as groups of names. Contracts see the list of the groups.
#[derive(Drop)]
pub struct FormGroups<'a> {
    groups: Vec<NameSet<'a>>,
}

impl<'a> Model for FormGroups<'a> {
    ghost use Rattle.std.specs.Prelude.{ℕ, List};

    ghost Value = { List (List (List ℕ)) };

    ghost view = { λ form. form.groups.items };
}

impl<'a> FormGroups<'a> {
    /// No group yet.
    pub fn new(alloc: Global) -> FormGroups<'a>
        ensures { result ≡ [] }
    {
        FormGroups {
            groups: Vec::new(alloc),
        }
    }

    /// Adds a group.
    pub fn push(&mut self, group: NameSet<'a>) -> Result<(), AllocError>
        ensures { OnOk result (self.new ≡ self.old ++ group.entry ∷ []) }
    {
        self.groups.push(group)?;
        Ok(())
    }

    // Whether two forms are the same.
    fn is_same(&self, other: &FormGroups<'_>) -> bool
        ensures { result ≡ pointwise same_names self.now other.now }
    {
        are_same(&self.groups, &other.groups)
    }
}

// Whether two lists have the same groups.
fn are_same(groups: &[NameSet<'_>], others: &[NameSet<'_>]) -> bool
    ensures { result ≡ pointwise same_names groups.now others.now }
{
    match (groups.split_first(), others.split_first()) {
        (None, None) => true,
        (Some((first, rest)), Some((other, other_rest))) => {
            first.is_same(other) && are_same(rest, other_rest)
        }
        _ => false,
    }
}

/// What is compared of an entry in one part.
#[derive(Drop)]
pub enum PartValue<'a> {
    /// A set of names.
    Names(NameSet<'a>),
    /// A text that is compared by its form.
    Form(FormGroups<'a>, Text),
}

/// A part of an entry.
#[derive(Drop)]
pub struct Part<'a> {
    pub label: Label,
    pub value: PartValue<'a>,
}

/// Whether two parts are the same.
pub(crate) fn same_part(part: &Part<'_>, other: &Part<'_>) -> bool
    ensures { result ≡ same_part part.now other.now }
{
    match (&part.value, &other.value) {
        (PartValue::Names(names), PartValue::Names(others)) => names.is_same(others),
        (PartValue::Form(form, _), PartValue::Form(other, _)) => form.is_same(other),
        _ => false,
    }
}

/// Whether the parts of two entries are the same, one by one.
pub(crate) fn same_parts(parts: &[Part<'_>], others: &[Part<'_>]) -> bool
    ensures { result ≡ same_parts parts.now others.now }
{
    match (parts.split_first(), others.split_first()) {
        (None, None) => true,
        (Some((first, rest)), Some((other, other_rest))) => {
            same_part(first, other) && same_parts(rest, other_rest)
        }
        _ => false,
    }
}
