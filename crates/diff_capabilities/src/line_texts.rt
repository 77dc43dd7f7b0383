//! The texts of all lines of a listing.

ghost use Rattle.std.specs.Prelude.{◌≡◌, ◌<◌, ◌∷◌, IfOk, length};

use diff_entries::Text;
use info_lines::Lines;
use std::alloc::{AllocError, Global};

/// The texts of the lines that are left.
pub(crate) fn line_texts<L: Lines>(alloc: Global, lines: &mut L) -> Result<Vec<Text>, AllocError>
    ensures { IfOk result (λ texts. texts.items ≡ L.left lines.old) }
{
    let mut texts = Vec::new(alloc);
    'lines: while lines.count() > 0 {
        texts.push(next_text(alloc, lines)?)?;
    }
    Ok(texts)
}

// The text of the next line.
fn next_text<L: Lines>(alloc: Global, lines: &mut L) -> Result<Text, AllocError>
    requires { 0 < length (L.left lines.old) }
    ensures { IfOk result (λ text. L.left lines.old ≡ text ∷ L.left lines.new) }
{
    let mut buffer = Vec::new(alloc);
    lines.push_line(&mut buffer)?;
    Ok(Text::new(buffer))
}
