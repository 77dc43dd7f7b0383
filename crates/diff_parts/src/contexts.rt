//! Contexts, by their forms.

ghost use Rattle.std.specs.Prelude.{◌≡◌, IfOk};
ghost use Rattle.diff_parts.specs.EntryParts.{context_form, context_names, context_part};

use crate::entry_parts::{name_or_none, push_range_groups};
use diff_entries::{FormGroups, Label, NameSet, Part, PartValue, Text};
use pol_fields::TableKind;
use pol_mls::{ContextView, context_text};
use pol_symbols::Symbols;
use std::alloc::{AllocError, Global};

/// A context, by its names and the form of its range.
pub fn context_part<'a>(
    alloc: Global,
    symbols: &Symbols<'a>,
    label: Label,
    context: &ContextView<'_>,
) -> Result<Part<'a>, AllocError>
    ensures { IfOk result (λ part. part ≡ context_part symbols.now label context.now.value) }
{
    let text = context_text(alloc, context, symbols)?;
    let form = context_groups(alloc, symbols, context)?;
    Ok(Part {
        label,
        value: PartValue::Form(form, Text::new(text)),
    })
}

// The form of a context.
#[tactic(auto, unfolding(crate::specs::EntryParts::context_form))]
fn context_groups<'a>(
    alloc: Global,
    symbols: &Symbols<'a>,
    context: &ContextView<'_>,
) -> Result<FormGroups<'a>, AllocError>
    ensures { IfOk result (λ form. form ≡ context_form symbols.now context.now.value) }
{
    let mut form = FormGroups::new(alloc);
    form.push(context_names(alloc, symbols, context)?)?;
    push_range_groups(alloc, symbols, &context.range(), &mut form)?;
    Ok(form)
}

// The names of a context.
fn context_names<'a>(
    alloc: Global,
    symbols: &Symbols<'a>,
    context: &ContextView<'_>,
) -> Result<NameSet<'a>, AllocError>
    ensures { IfOk result (λ group. group ≡ context_names symbols.now context.now.value) }
{
    let mut names = Vec::new(alloc);
    names.push(name_or_none(symbols, TableKind::Users, context.user()))?;
    names.push(name_or_none(symbols, TableKind::Roles, context.role()))?;
    names.push(name_or_none(symbols, TableKind::Types, context.type_value()))?;
    Ok(NameSet::new(names))
}
