//! Parts of entries, and the beginnings of their statements.

ghost use Rattle.std.specs.Prelude.{◌≡◌, ◌∷◌, [], ◌++◌, IfOk, OnOk, map};
ghost use Rattle.pol_mls.specs.MlsTexts.{low_level};
ghost use Rattle.diff_parts.specs.EntryParts.{high_or, level_form, level_part, name_or_none, names_part, range_form, range_part, word_part};

use diff_entries::{FormGroups, Label, NameSet, Part, PartValue, Text};
use info_lines::names_of_bits;
use pol_bitmap::BitmapView;
use pol_fields::TableKind;
use pol_mls::{LevelView, RangeView, level_text, range_text};
use pol_symbols::Symbols;
use std::alloc::{AllocError, Global};

/// Adds a word and a name.
pub fn push_named(buffer: &mut Vec<u8>, word: &[u8], name: &[u8]) -> Result<(), AllocError>
    ensures { OnOk result (buffer.new.items ≡ buffer.old.items ++ (word.now ++ name.now)) }
{
    buffer.extend_from_slice(word)?;
    buffer.extend_from_slice(name)
}

/// One part.
pub fn one_part<'a>(alloc: Global, part: Part<'a>) -> Result<Vec<Part<'a>>, AllocError>
    ensures { IfOk result (λ parts. parts.items ≡ part.entry ∷ []) }
{
    let mut parts = Vec::new(alloc);
    parts.push(part)?;
    Ok(parts)
}

/// A set of names.
pub fn names_part<'a>(label: Label, names: Vec<&'a [u8]>) -> Part<'a>
    ensures { result ≡ names_part label (map (λ name. name.now) names.entry.items) }
{
    Part {
        label,
        value: PartValue::Names(NameSet::new(names)),
    }
}

/// A word, whose form is itself.
pub fn word_part<'a>(alloc: Global, word: &'a [u8]) -> Result<Part<'a>, AllocError>
    ensures { IfOk result (λ part. part ≡ word_part word.now) }
{
    let text = Text::new(Vec::from_slice(alloc, word)?);
    let group = group_of(alloc, word, &[])?;
    let form = one_group(alloc, group)?;
    Ok(Part {
        label: Label::Unnamed,
        value: PartValue::Form(form, text),
    })
}

// The group of a name and others behind it.
fn group_of<'a>(
    alloc: Global,
    first: &'a [u8],
    others: &[&'a [u8]],
) -> Result<NameSet<'a>, AllocError>
    ensures { IfOk result (λ group. group ≡ first.now ∷ map (λ name. name.now) others.now) }
{
    let mut names = Vec::new(alloc);
    names.push(first)?;
    names.extend_from_slice(others)?;
    Ok(NameSet::new(names))
}

// The form that has one group.
fn one_group<'a>(alloc: Global, group: NameSet<'a>) -> Result<FormGroups<'a>, AllocError>
    ensures { IfOk result (λ form. form ≡ group.entry ∷ []) }
{
    let mut form = FormGroups::new(alloc);
    form.push(group)?;
    Ok(form)
}

/// The name of a value of a table, and the empty one where it has none.
pub fn name_or_none<'a>(symbols: &Symbols<'a>, table: TableKind, value: u32) -> &'a [u8]
    ensures { result.now ≡ name_or_none symbols.now table value }
{
    match symbols.name_of(table, value) {
        Some(name) => name,
        None => b"",
    }
}

// The form of the level of a sensitivity and categories.
#[tactic(auto, unfolding(crate::specs::EntryParts::level_form))]
fn level_group<'a>(
    alloc: Global,
    symbols: &Symbols<'a>,
    sens: u32,
    categories: &BitmapView<'_>,
) -> Result<NameSet<'a>, AllocError>
    ensures { IfOk result (λ group. group ≡ level_form symbols.now (record { sens = sens; categories = categories.now })) }
{
    let names = names_of_bits(alloc, symbols, TableKind::Categories, categories)?;
    group_of(
        alloc,
        name_or_none(symbols, TableKind::Levels, sens),
        &names,
    )
}

/// A level, by its form.
pub fn level_part<'a>(
    alloc: Global,
    symbols: &Symbols<'a>,
    level: &LevelView<'_>,
) -> Result<Part<'a>, AllocError>
    ensures { IfOk result (λ part. part ≡ level_part symbols.now level.now.value) }
{
    let categories = level.categories();
    let text = level_text(alloc, level.sens(), &categories, symbols)?;
    let group = level_group(alloc, symbols, level.sens(), &categories)?;
    let form = one_group(alloc, group)?;
    Ok(Part {
        label: Label::Level,
        value: PartValue::Form(form, Text::new(text)),
    })
}

/// A range, by the forms of its levels.
pub fn range_part<'a>(
    alloc: Global,
    symbols: &Symbols<'a>,
    range: &RangeView<'_>,
) -> Result<Part<'a>, AllocError>
    ensures { IfOk result (λ part. part ≡ range_part symbols.now range.now.value) }
{
    let text = range_text(alloc, range, symbols)?;
    let mut form = FormGroups::new(alloc);
    push_range_groups(alloc, symbols, range, &mut form)?;
    Ok(Part {
        label: Label::Range,
        value: PartValue::Form(form, Text::new(text)),
    })
}

/// Adds the form of a range to that of which it is a part.
#[tactic(auto, unfolding(crate::specs::EntryParts::range_form))]
pub(crate) fn push_range_groups<'a>(
    alloc: Global,
    symbols: &Symbols<'a>,
    range: &RangeView<'_>,
    form: &mut FormGroups<'a>,
) -> Result<(), AllocError>
    ensures { OnOk result (form.new ≡ form.old ++ range_form symbols.now range.now.value) }
{
    let low = low_group(alloc, symbols, range)?;
    let high = high_group(alloc, symbols, range)?;
    form.push(low)?;
    form.push(high)
}

// The form of the low level of a range.
fn low_group<'a>(
    alloc: Global,
    symbols: &Symbols<'a>,
    range: &RangeView<'_>,
) -> Result<NameSet<'a>, AllocError>
    ensures { IfOk result (λ group. group ≡ level_form symbols.now (low_level range.now.value)) }
{
    level_group(alloc, symbols, range.low(), &range.low_categories())
}

// The form of the high level of a range, which is the low one where there is none.
fn high_group<'a>(
    alloc: Global,
    symbols: &Symbols<'a>,
    range: &RangeView<'_>,
) -> Result<NameSet<'a>, AllocError>
    ensures { IfOk result (λ group. group ≡ level_form symbols.now (high_or (low_level range.now.value) range.now.value.high)) }
{
    match (range.high(), range.high_categories()) {
        (Some(high), Some(categories)) => level_group(alloc, symbols, high, &categories),
        _ => low_group(alloc, symbols, range),
    }
}
