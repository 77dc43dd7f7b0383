//! The texts of changes.

ghost use Rattle.std.specs.Prelude.{◌≡◌, ◌++◌, true, IfOk, OnOk, map, option_map, slice_get};
ghost use Rattle.std.specs.List.{flat_map};
ghost use Rattle.std.specs.Option.{option_and_then};
ghost use Rattle.keyed_lists.specs.Inner.PlacedEntries.{both_at, paired};
ghost use Rattle.diff_entries.specs.Entries.{name_cmp};
ghost use Rattle.diff_entries.specs.Changes.{change_at, change_of, changes_text, label_text, names_alone, part_change, set_change, signed_both, signed_name, text_change, value_change};

use crate::keys::Text;
use crate::names::NameSet;
use crate::parts::{Label, Part, PartValue, same_part};
use keyed_lists::{Places, pair_up};
use std::alloc::{AllocError, Global};

/// Adds what the parts of an entry have become, one by one.
pub(crate) fn push_changes(
    buffer: &mut Vec<u8>,
    first: &[Part<'_>],
    second: &[Part<'_>],
) -> Result<(), AllocError>
    ensures { OnOk result (buffer.new.items ≡ buffer.old.items ++ changes_text first.now second.now) }
{
    for i in 0..first.len() {
        push_change_at(buffer, first, second, i)?;
    }
    Ok(())
}

// Adds what the parts of a number have become, where both are there.
#[tactic(auto, unfolding(crate::specs::Changes::change_at))]
fn push_change_at(
    buffer: &mut Vec<u8>,
    first: &[Part<'_>],
    second: &[Part<'_>],
    i: usize,
) -> Result<(), AllocError>
    ensures { OnOk result (buffer.new.items ≡ buffer.old.items ++ change_at first.now second.now i) }
{
    let part = first.get(i);
    let other = second.get(i);
    push_change(buffer, part, other)
}

// Adds what a part has become, where both are there.
fn push_change(
    buffer: &mut Vec<u8>,
    first: Option<&Part<'_>>,
    second: Option<&Part<'_>>,
) -> Result<(), AllocError>
    ensures { OnOk result (buffer.new.items ≡ buffer.old.items ++ change_of (option_map (λ part. part.now) first.entry) (option_map (λ part. part.now) second.entry)) }
{
    match (first, second) {
        (Some(first), Some(second)) => push_part_change(buffer, first, second),
        _ => Ok(()),
    }
}

// Adds what a part has become, where that is not the same.
fn push_part_change(
    buffer: &mut Vec<u8>,
    first: &Part<'_>,
    second: &Part<'_>,
) -> Result<(), AllocError>
    ensures { OnOk result (buffer.new.items ≡ buffer.old.items ++ part_change first.now second.now) }
{
    if same_part(first, second) {
        return Ok(());
    }
    buffer.extend_from_slice(label_text(first.label))?;
    buffer.push(b' ')?;
    push_value_change(buffer, &first.value, &second.value)
}

// What stands before the change of a part.
fn label_text(label: Label) -> &'static [u8]
    ensures { result.now ≡ label_text label }
{
    match label {
        Label::Unnamed => b"",
        Label::Alias => b" alias",
        Label::Attributes => b" attributes",
        Label::Types => b" types",
        Label::Roles => b" roles",
        Label::Level => b" level",
        Label::Range => b" range",
        Label::Context => b" context",
        Label::Packet => b" packet",
    }
}

// Adds what a value has become.
fn push_value_change(
    buffer: &mut Vec<u8>,
    first: &PartValue<'_>,
    second: &PartValue<'_>,
) -> Result<(), AllocError>
    ensures { OnOk result (buffer.new.items ≡ buffer.old.items ++ value_change first.now second.now) }
{
    match (first, second) {
        (PartValue::Names(first), PartValue::Names(second)) => {
            push_set_change(buffer, first, second)
        }
        (PartValue::Form(_, first), PartValue::Form(_, second)) => {
            push_text_change(buffer, first, second)
        }
        _ => Ok(()),
    }
}

// Adds a text in place of another.
fn push_text_change(buffer: &mut Vec<u8>, first: &Text, second: &Text) -> Result<(), AllocError>
    ensures { OnOk result (buffer.new.items ≡ buffer.old.items ++ text_change first.now second.now) }
{
    buffer.extend_from_slice(b"+[")?;
    buffer.extend_from_slice(second.bytes())?;
    buffer.extend_from_slice(b"] -[")?;
    buffer.extend_from_slice(first.bytes())?;
    buffer.extend_from_slice(b"]")
}

/// Adds the names that one of two sets has alone.
pub fn push_set_change(
    buffer: &mut Vec<u8>,
    first: &NameSet<'_>,
    second: &NameSet<'_>,
) -> Result<(), AllocError>
    ensures { OnOk result (buffer.new.items ≡ buffer.old.items ++ set_change first.now second.now) }
{
    buffer.push(b'{')?;
    push_names_alone(buffer, first, second)?;
    buffer.extend_from_slice(b" }")
}

// Adds those names, each with its sign.
fn push_names_alone(
    buffer: &mut Vec<u8>,
    first: &NameSet<'_>,
    second: &NameSet<'_>,
) -> Result<(), AllocError>
    ensures { OnOk result (buffer.new.items ≡ buffer.old.items ++ names_alone first.now second.now) }
{
    let names = pair_names(*buffer.allocator(), first, second)?;
    push_signed_names(buffer, first.names(), second.names(), &names)
}

// The places of all names of two sets, in their order.
fn pair_names(
    alloc: Global,
    first: &NameSet<'_>,
    second: &NameSet<'_>,
) -> Result<Vec<Places>, AllocError>
    ensures { IfOk result (λ places. places.items ≡ paired name_cmp (λ name. name) first.now second.now) }
{
    pair_up(alloc, first.to_names(alloc)?, second.to_names(alloc)?)
}

// Adds the names at these places that one list has alone, with their signs.
fn push_signed_names(
    buffer: &mut Vec<u8>,
    first: &[&[u8]],
    second: &[&[u8]],
    places: &[Places],
) -> Result<(), AllocError>
    ensures { OnOk result (buffer.new.items ≡ buffer.old.items ++ flat_map (λ places. signed_both (both_at (map (λ name. name.now) first.now) (map (λ name. name.now) second.now) places)) places.now) }
{
    for at in places {
        push_signed_at(buffer, first, second, *at)?;
    }
    Ok(())
}

// Adds the name at these places, where one list has it alone, with its sign.
fn push_signed_at(
    buffer: &mut Vec<u8>,
    first: &[&[u8]],
    second: &[&[u8]],
    places: Places,
) -> Result<(), AllocError>
    ensures { OnOk result (buffer.new.items ≡ buffer.old.items ++ signed_both (both_at (map (λ name. name.now) first.now) (map (λ name. name.now) second.now) places)) }
{
    let name = name_at(first, places.first);
    let other = name_at(second, places.second);
    push_signed_name(buffer, name, other)
}

// The name at a place, where there is one.
fn name_at<'a>(names: &[&'a [u8]], place: Option<usize>) -> Option<&'a [u8]>
    ensures { option_map (λ name. name.now) result ≡ option_and_then (slice_get (map (λ name. name.now) names.now)) place }
{
    match place {
        Some(place) => names.get(place).copied(),
        None => None,
    }
}

// Adds a name that one of two sets has alone.
fn push_signed_name(
    buffer: &mut Vec<u8>,
    first: Option<&[u8]>,
    second: Option<&[u8]>,
) -> Result<(), AllocError>
    ensures { OnOk result (buffer.new.items ≡ buffer.old.items ++ signed_name (option_map (λ name. name.now) first.entry) (option_map (λ name. name.now) second.entry)) }
{
    match (first, second) {
        (None, Some(name)) => push_after(buffer, b" +", name),
        (Some(name), None) => push_after(buffer, b" -", name),
        _ => Ok(()),
    }
}

// Adds a sign and a name.
fn push_after(buffer: &mut Vec<u8>, sign: &[u8], name: &[u8]) -> Result<(), AllocError>
    ensures { OnOk result (buffer.new.items ≡ buffer.old.items ++ sign.now ++ name.now) }
{
    buffer.extend_from_slice(sign)?;
    buffer.extend_from_slice(name)
}
