//! Elements of keys, and parts of contexts.

ghost use Rattle.std.specs.Prelude.{◌≡◌, ◌∷◌, [], ◌++◌, IfOk, OnOk};
ghost use Rattle.diff_contexts.specs.ContextEntries.{alone, number_element};

use diff_entries::{Key, Label, Part};
use diff_parts::{context_part, one_part};
use pol_mls::ContextView;
use pol_symbols::Symbols;
use std::alloc::{AllocError, Global};

/// Adds bytes to a key.
pub(crate) fn push_bytes(alloc: Global, key: &mut Key, bytes: &[u8]) -> Result<(), AllocError>
    ensures { OnOk result (key.new ≡ key.old ++ bytes.now ∷ []) }
{
    key.push(Vec::from_slice(alloc, bytes)?)
}

/// Adds a number to a key.
pub(crate) fn push_number(alloc: Global, key: &mut Key, number: u32) -> Result<(), AllocError>
    ensures { OnOk result (key.new ≡ key.old ++ number_element number ∷ []) }
{
    push_bytes(
        alloc,
        key,
        &[
            (number / 16_777_216) as u8,
            (number / 65_536 % 256) as u8,
            (number / 256 % 256) as u8,
            (number % 256) as u8,
        ],
    )
}

/// The one part of an entry: its context.
pub(crate) fn context_alone<'a>(
    alloc: Global,
    symbols: &Symbols<'a>,
    context: &ContextView<'_>,
) -> Result<Vec<Part<'a>>, AllocError>
    ensures { IfOk result (λ parts. parts.items ≡ alone symbols.now context.now.value) }
{
    let part = context_part(alloc, symbols, Label::Unnamed, context)?;
    one_part(alloc, part)
}
