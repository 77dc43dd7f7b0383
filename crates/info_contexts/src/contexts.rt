// Contexts in lines.
ghost use Rattle.std.specs.Prelude.{◌≡◌, ◌++◌, OnOk};
ghost use Rattle.pol_mls.specs.ContextText.{context_text};

use pol_cursor::Names;
use pol_mls::{ContextView, context_text};
use std::alloc::AllocError;

/// Appends the text of a context, `USER:ROLE:TYPE:RANGE`.
pub fn push_context<N: Names>(
    buffer: &mut Vec<u8>,
    context: &ContextView<'_>,
    names: &N,
) -> Result<(), AllocError>
    ensures { OnOk result (buffer.new.items ≡ buffer.old.items ++ context_text (N.named names.now) context.now.value) }
{
    let alloc = *buffer.allocator();
    let text = context_text(alloc, context, names)?;
    buffer.extend_from_slice(&text)
}
