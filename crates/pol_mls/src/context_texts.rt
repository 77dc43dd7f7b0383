//! The text of a context.

ghost use Rattle.std.specs.Prelude.{◌≡◌, IfOk};
ghost use Rattle.pol_mls.specs.ContextText.{context_text};

use crate::context_view::ContextView;
use crate::texts::range_text;
use pol_cursor::{Names, push_name};
use pol_fields::TableKind;
use std::alloc::{AllocError, Global};

/// The text of a context, `USER:ROLE:TYPE:RANGE`. A value without a name has the empty name.
pub fn context_text<N: Names>(
    alloc: Global,
    context: &ContextView<'_>,
    names: &N,
) -> Result<Vec<u8>, AllocError>
    ensures { IfOk result (λ text. text.items ≡ context_text (N.named names.now) context.now.value) }
{
    let mut text = Vec::new(alloc);
    push_name(&mut text, TableKind::Users, context.user(), names)?;
    text.push(b':')?;
    push_name(&mut text, TableKind::Roles, context.role(), names)?;
    text.push(b':')?;
    push_name(&mut text, TableKind::Types, context.type_value(), names)?;
    text.push(b':')?;
    text.extend_from_slice(&range_text(alloc, &context.range(), names)?)?;
    Ok(text)
}
