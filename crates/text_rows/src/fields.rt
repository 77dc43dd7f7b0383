// The fields of a line.
ghost use Rattle.std.specs.Prelude.{◌≡◌, ◌<◌, [], ◌∷◌, false, MatchOption, length, not, position, slice_index};
ghost use Rattle.text_rows.specs.TextLines.{begins_comment, fields_in, is_word, parts_fields, pieces_of};

fn parts_fields(byte: u8) -> bool
    ensures { result ≡ parts_fields byte }
{
    byte == b' ' || byte == b'\t'
}

fn begins_comment(piece: &[u8]) -> bool
    ensures { result ≡ begins_comment piece.now }
{
    match piece {
        [byte, ..] => *byte == b'#',
        [] => false,
    }
}

// Where the first piece begins.
fn piece_start(text: &[u8]) -> Option<usize>
    ensures { result ≡ position (λ byte. not (parts_fields byte)) text.now }
{
    text.iter().position(|byte| !parts_fields(*byte))
}

// Where a piece ends that the text begins with.
fn piece_end(text: &[u8]) -> Option<usize>
    ensures { result ≡ position parts_fields text.now }
{
    text.iter().position(|byte| parts_fields(*byte))
}

// The first piece between spaces and tabs, and what follows it.
fn first_piece(text: &[u8]) -> Option<(&[u8], &[u8])>
    ensures { MatchOption result (pieces_of text.now ≡ []) (λ r. pieces_of text.now ≡ r.0.now ∷ pieces_of r.1.now) }
{
    match piece_start(text) {
        Some(start) => Some(cut_piece(&text[start..])),
        None => None,
    }
}

// The piece that a text begins with, and what follows it.
fn cut_piece(text: &[u8]) -> (&[u8], &[u8])
    requires some { 0 < length text.now }
    requires begins { parts_fields (slice_index text.now 0) ≡ false }
    ensures { pieces_of text.now ≡ result.0.now ∷ pieces_of result.1.now }
{
    match piece_end(text) {
        Some(end) => (&text[..end], &text[end..]),
        None => (text, &[]),
    }
}

/// The first field of a text, and what follows it.
#[tactic(auto, using(crate::proofs::PieceLemmas::field_first, crate::proofs::PieceLemmas::comment_first, crate::proofs::PieceLemmas::no_fields))]
pub fn first_field(text: &[u8]) -> Option<(&[u8], &[u8])>
    ensures { MatchOption result (fields_in text.now ≡ []) (λ r. fields_in text.now ≡ r.0.now ∷ fields_in r.1.now) }
{
    let Some((piece, rest)) = first_piece(text) else {
        return None;
    };
    if begins_comment(piece) {
        return None;
    }
    Some((piece, rest))
}

/// Whether a field is a word: bytes 0x21 to 0x7E.
pub fn is_word(text: &[u8]) -> bool
    ensures { result ≡ is_word text.now }
{
    text.iter().all(|byte| 0x21 <= *byte && *byte <= 0x7e)
}
