// What stands behind the keys of a table.
ghost use Rattle.std.specs.Prelude.{◌<◌, IfOk};

use crate::case::Source;
use crate::cause::Cause;
use crate::edit::Edit;
use crate::sweep::Sweep;
use crate::text::unescaped;
use se_options::Words;
use std::alloc::Global;

/// A number in decimal digits.
pub fn number_of(text: &str) -> Result<u64, Cause> {
    text.parse::<u64>().map_err(|_| Cause::NotNumber)
}

/// A number of bytes, in decimal digits.
pub fn size_of(text: &str) -> Result<usize, Cause> {
    text.parse::<usize>().map_err(|_| Cause::NotNumber)
}

/// A number of bytes that is not 0, in decimal digits.
pub fn most_of(text: &str) -> Result<usize, Cause>
    ensures { IfOk result (λ n. 0 < n) }
{
    match size_of(text)? {
        0 => Err(Cause::NotNumber),
        size => Ok(size),
    }
}

/// A status in decimal digits.
pub fn code_of(text: &str) -> Result<u8, Cause> {
    text.parse::<u8>().map_err(|_| Cause::NotNumber)
}

/// What goes wrong in the runs of a case, by its word.
pub fn sweep_of(text: &str) -> Result<Sweep, Cause> {
    Sweep::of(text).ok_or(Cause::BadSweep)
}

/// Words with one space between them, each with escapes.
pub fn words_of(alloc: Global, text: &str) -> Result<Words, Cause> {
    let mut words = Words::new(alloc);
    if text.is_empty() {
        return Ok(words);
    }
    for word in text.split(' ') {
        push_word(alloc, word, &mut words)?;
    }
    Ok(words)
}

// Adds one word, whether it is a text or not.
fn push_word(alloc: Global, word: &str, words: &mut Words) -> Result<(), Cause> {
    if word.is_empty() {
        return Err(Cause::EmptyWord);
    }
    let bytes = unescaped(alloc, word)?;
    Ok(words.push_bytes(&bytes)?)
}

/// A name with escapes.
pub fn name_of(alloc: Global, text: &str) -> Result<String, Cause> {
    let bytes = unescaped(alloc, text)?;
    match str::from_utf8(&bytes) {
        Ok(name) => Ok(String::from_str(alloc, name)?),
        Err(_) => Err(Cause::NotText),
    }
}

/// A file's name, and edits with a comma and a space between them.
pub fn source_of(alloc: Global, text: &str) -> Result<Source, Cause> {
    let (file, edits) = match text.split_once(' ') {
        Some((file, edits)) => (file, edits_of(alloc, edits)?),
        None => (text, Vec::new(alloc)),
    };
    Ok(Source {
        file: String::from_str(alloc, file)?,
        edits,
    })
}

// Edits with a comma and a space between them.
fn edits_of(alloc: Global, text: &str) -> Result<Vec<Edit>, Cause> {
    let mut edits = Vec::new(alloc);
    for edit in text.split(", ") {
        edits.push(edit_of(alloc, edit)?)?;
    }
    Ok(edits)
}

// One edit: its word and what it is told.
fn edit_of(alloc: Global, text: &str) -> Result<Edit, Cause> {
    let Some((word, rest)) = text.split_once(' ') else {
        return Err(Cause::BadEdit);
    };
    if word == "keep" {
        Ok(Edit::Keep(size_of(rest)?))
    } else if word == "append" {
        Ok(Edit::Append(hex_of(alloc, rest)?))
    } else if word == "zeros" {
        Ok(Edit::Zeros(size_of(rest)?))
    } else if word == "at" {
        at_of(alloc, rest)
    } else {
        Err(Cause::BadEdit)
    }
}

// A place and the bytes that come there.
fn at_of(alloc: Global, text: &str) -> Result<Edit, Cause> {
    let Some((place, hex)) = text.split_once(' ') else {
        return Err(Cause::BadEdit);
    };
    Ok(Edit::At(size_of(place)?, hex_of(alloc, hex)?))
}

// Bytes in hexadecimal digits.
fn hex_of(alloc: Global, text: &str) -> Result<Vec<u8>, Cause> {
    hex::decode(alloc, text).map_err(|_| Cause::NotHex)
}
