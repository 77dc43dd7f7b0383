// The words that a process was started with, as Linux tells them.
ghost use Rattle.std.specs.Prelude.{◌≡◌, ◌<◌, [], ◌∷◌, IfOk, MatchOption, IfSome, length};
ghost use Rattle.std.specs.List.{position_from};
ghost use Rattle.se_options.specs.ProcessWords.{ended, is_zero, process_words};

use se_words::Words;
use std::alloc::{AllocError, Global};

/// The words after the program's name, from the bytes of `/proc/self/cmdline`: each word, the name before all others, ends at
/// a zero byte. A word that is no UTF-8 is no text by itself.
#[tactic(auto, unfolding(crate::specs::ProcessWords::process_words))]
pub fn words_of_bytes(alloc: Global, bytes: &[u8]) -> Result<Words, AllocError>
    ensures { IfOk result (λ words. words ≡ process_words bytes.now) }
{
    let mut words = Words::new(alloc);
    let (_name, mut rest) = match next_word(bytes) {
        Some(parts) => parts,
        None => return Ok(words),
    };
    'words: while let Some((word, after)) = next_word(rest) {
        words.push_bytes(word)?;
        rest = after;
    }
    Ok(words)
}

// The first word that ends at a zero byte, and the bytes after that.
fn next_word(bytes: &[u8]) -> Option<(&[u8], &[u8])>
    ensures parts { MatchOption result (ended bytes.now ≡ []) (λ parts. ended bytes.now ≡ parts.0.now ∷ ended parts.1.now) }
    ensures shorter { IfSome result (λ parts. length parts.1.now < length bytes.now) }
{
    match first_zero(bytes) {
        None => None,
        Some(end) => Some((&bytes[..end], &bytes[end + 1..])),
    }
}

// The index of the first zero byte.
fn first_zero(bytes: &[u8]) -> Option<usize>
    ensures index { result ≡ position_from is_zero 0 bytes.now }
    ensures within { IfSome result (λ index. index < length bytes.now) }
{
    bytes.iter().position(|byte| *byte == 0)
}
