// The elements of a list.
ghost use Rattle.std.specs.Prelude.{◌≡◌, ◌<◌, ℕ, IfOk, IfSome, MatchOption, map, length, ◌∷◌, []};
ghost use Rattle.std.specs.List.{position_from, slice_split};
ghost use Rattle.rule_criteria.specs.Elements.{elements_of, is_comma};

use std::alloc::{AllocError, Global};

/// The parts of a text between its commas.
pub fn elements(alloc: Global, text: &[u8]) -> Result<Vec<&[u8]>, AllocError>
    ensures { IfOk result (λ elements. map (λ element. element.now) elements.items ≡ elements_of text.now) }
{
    let mut elements = Vec::new(alloc);
    let mut rest = text;
    'elements: while let Some((element, after)) = first_element(rest) {
        elements.push(element)?;
        rest = after;
    }
    elements.push(rest)?;
    Ok(elements)
}

// What stands before the first comma, and what stands behind it, if there is one.
fn first_element(text: &[u8]) -> Option<(&[u8], &[u8])>
    ensures parts { MatchOption result (elements_of text.now ≡ text.now ∷ []) (λ parts. elements_of text.now ≡ parts.0.now ∷ elements_of parts.1.now) }
    ensures shorter { IfSome result (λ parts. length parts.1.now < length text.now) }
{
    match first_comma(text) {
        None => None,
        Some(end) => Some((&text[..end], &text[end + 1..])),
    }
}

// The index of the first comma.
fn first_comma(text: &[u8]) -> Option<usize>
    ensures index { result ≡ position_from is_comma 0 text.now }
    ensures within { IfSome result (λ index. index < length text.now) }
{
    text.iter().position(|byte| *byte == b',')
}
