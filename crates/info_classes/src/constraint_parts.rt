//! The parts of a constraint's line.

ghost use Rattle.std.specs.Prelude.{◌≡◌, ◌++◌, IfOk, IfSome, OnOk, map};
ghost use Rattle.std.specs.List.{filter, fold, list_any};
ghost use Rattle.pol_commons.specs.Permissions.{has_permission};
ghost use Rattle.pol_symbols.specs.PolicySymbols.{name_in, permissions_of};
ghost use Rattle.pol_texts.specs.NameLists.{with_name};
ghost use Rattle.info_lines.specs.PermissionSets.{permissions_text};
ghost use Rattle.pol_constraints.specs.ConstraintTexts.{constraint_text};
ghost use Rattle.info_classes.specs.ConstraintLines.{is_level_pair, compares_levels, mls_word, subject_text, constraint_line};

use crate::constraint_entry::{ConstraintEntry, ConstraintKind};
use info_lines::{insert_name, push_set};
use pol_classes::ClassView;
use pol_commons::{PermissionList, inherited_from};
use pol_constraints::codes::{
    CEXPR_ATTR, CEXPR_H1H2, CEXPR_H1L2, CEXPR_L1H1, CEXPR_L1H2, CEXPR_L1L2, CEXPR_L2H2,
};
use pol_constraints::{ConstraintItemView, ConstraintItems, ConstraintView};
use pol_symbols::Symbols;
use std::alloc::AllocError;

/// Adds the line of a constraint of a kind, whose expression has the text that is given, if one is.
#[tactic(auto, unfolding(crate::specs::ConstraintLines::constraint_line))]
pub fn push_constraint(
    buffer: &mut Vec<u8>,
    symbols: &Symbols<'_>,
    kind: ConstraintKind,
    entry: &ConstraintEntry<'_>,
    kept: Option<&[u8]>,
) -> Result<(), AllocError>
    requires { IfSome kept (λ text. text.now ≡ constraint_text (name_in symbols.now) entry.now.constraint.items) }
    ensures { OnOk result (buffer.new.items ≡ buffer.old.items ++ constraint_line symbols.now kind entry.now) }
{
    push_mls_word(buffer, entry.constraint.items())?;
    push_subject(buffer, symbols, kind, entry)?;
    buffer.extend_from_slice(b" (")?;
    push_expression(buffer, symbols, &entry.constraint, kept)?;
    buffer.extend_from_slice(b");")
}

// Adds the word of MLS where an item compares levels.
fn push_mls_word(buffer: &mut Vec<u8>, items: ConstraintItems<'_>) -> Result<(), AllocError>
    ensures { OnOk result (buffer.new.items ≡ buffer.old.items ++ mls_word items.entry) }
{
    if some_compares_levels(items) {
        buffer.extend_from_slice(b"mls")
    } else {
        Ok(())
    }
}

/// Whether one of these items compares levels.
pub fn some_compares_levels(items: ConstraintItems<'_>) -> bool
    ensures { result ≡ list_any compares_levels items.entry }
{
    for item in items {
        if compares_levels(&item) {
            return true;
        }
    }
    false
}

// Whether an item compares levels.
fn compares_levels(item: &ConstraintItemView<'_>) -> bool
    ensures { result ≡ compares_levels item.now }
{
    item.kind() == CEXPR_ATTR && is_level_pair(item.attr())
}

// Whether two sides are levels.
#[tactic(auto, unfolding(crate::specs::ConstraintLines::is_level_pair))]
fn is_level_pair(attr: u32) -> bool
    ensures { result ≡ is_level_pair attr }
{
    match attr {
        CEXPR_L1L2 | CEXPR_L1H2 | CEXPR_H1L2 | CEXPR_H1H2 | CEXPR_L1H1 | CEXPR_L2H2 => true,
        _ => false,
    }
}

// Adds what a constraint is about.
fn push_subject(
    buffer: &mut Vec<u8>,
    symbols: &Symbols<'_>,
    kind: ConstraintKind,
    entry: &ConstraintEntry<'_>,
) -> Result<(), AllocError>
    ensures { OnOk result (buffer.new.items ≡ buffer.old.items ++ subject_text symbols.now kind entry.now) }
{
    match kind {
        ConstraintKind::OnPermissions => {
            buffer.extend_from_slice(b"constrain ")?;
            buffer.extend_from_slice(entry.class.name())?;
            buffer.extend_from_slice(b" ")?;
            push_permissions(
                buffer,
                symbols,
                &entry.class,
                entry.constraint.permissions(),
            )
        }
        ConstraintKind::OnChange => {
            buffer.extend_from_slice(b"validatetrans ")?;
            buffer.extend_from_slice(entry.class.name())
        }
    }
}

/// Adds the set of the permissions of a class whose bits are set.
#[tactic(auto, unfolding(info_lines::specs::PermissionSets::permissions_text))]
pub fn push_permissions(
    buffer: &mut Vec<u8>,
    symbols: &Symbols<'_>,
    class: &ClassView<'_>,
    mask: u32,
) -> Result<(), AllocError>
    ensures { OnOk result (buffer.new.items ≡ buffer.old.items ++ permissions_text mask (permissions_of symbols.now class.now.value)) }
{
    let inherited = inherited_from(&symbols.commons, class.common());
    let mut names = Vec::new(*buffer.allocator());
    insert_names(&mut names, class.permissions(), mask)?;
    insert_names(&mut names, inherited, mask)?;
    push_set(buffer, &names)
}

// Adds the names of those of these permissions whose bits are set, in order.
fn insert_names<'a>(
    names: &mut Vec<&'a [u8]>,
    permissions: PermissionList<'a>,
    mask: u32,
) -> Result<(), AllocError>
    ensures { OnOk result (map (λ name. name.now) names.new.items ≡ fold (λ sorted name. with_name name sorted) (map (λ name. name.now) names.old.items) (map (λ permission. permission.name) (filter (has_permission mask) permissions.entry))) }
{
    for permission in permissions {
        if permission.is_in(mask) {
            insert_name(names, permission.name())?;
        }
    }
    Ok(())
}

// Adds the text of the expression of a constraint: the one that is given, or else one that is made.
fn push_expression(
    buffer: &mut Vec<u8>,
    symbols: &Symbols<'_>,
    constraint: &ConstraintView<'_>,
    kept: Option<&[u8]>,
) -> Result<(), AllocError>
    requires { IfSome kept (λ text. text.now ≡ constraint_text (name_in symbols.now) constraint.now.items) }
    ensures { OnOk result (buffer.new.items ≡ buffer.old.items ++ constraint_text (name_in symbols.now) constraint.now.items) }
{
    match kept {
        Some(text) => buffer.extend_from_slice(text),
        None => push_made(buffer, symbols, constraint),
    }
}

// Adds the text of the expression of a constraint, made anew.
fn push_made(
    buffer: &mut Vec<u8>,
    symbols: &Symbols<'_>,
    constraint: &ConstraintView<'_>,
) -> Result<(), AllocError>
    ensures { OnOk result (buffer.new.items ≡ buffer.old.items ++ constraint_text (name_in symbols.now) constraint.now.items) }
{
    let text = constraint.infix(*buffer.allocator(), symbols)?;
    buffer.extend_from_slice(&text)
}
