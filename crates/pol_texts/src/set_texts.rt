//! The texts of sets of names.

ghost use Rattle.std.specs.Prelude.{◌≡◌, ◌++◌, OnOk, map};
ghost use Rattle.pol_texts.specs.SetTexts.{listed, set_text};

use std::alloc::AllocError;

/// Adds names as a set: one is itself, and otherwise they stand in braces.
pub fn push_set(buffer: &mut Vec<u8>, names: &[&[u8]]) -> Result<(), AllocError>
    ensures { OnOk result (buffer.new.items ≡ buffer.old.items ++ set_text (map (λ name. name.now) names.now)) }
{
    match names {
        [name] => buffer.extend_from_slice(name),
        _ => {
            buffer.extend_from_slice(b"{")?;
            push_listed(buffer, names)?;
            buffer.extend_from_slice(b" }")
        }
    }
}

// Adds names, with a space before each.
fn push_listed(buffer: &mut Vec<u8>, names: &[&[u8]]) -> Result<(), AllocError>
    ensures { OnOk result (buffer.new.items ≡ buffer.old.items ++ listed (map (λ name. name.now) names.now)) }
{
    for name in names {
        buffer.push(b' ')?;
        buffer.extend_from_slice(name)?;
    }
    Ok(())
}
