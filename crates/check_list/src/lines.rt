// What single lines of a checklist say.
ghost use Rattle.std.specs.Prelude.{◌≡◌, ◌∷◌, option_map};
ghost use Rattle.std.specs.List.{list_all};
ghost use Rattle.text_rows.specs.TextLines.{fields_in, is_word};
ghost use Rattle.check_list.specs.CheckWords.{is_name_byte};
ghost use Rattle.check_list.specs.CheckLines.{heading_in, is_truth, line_in, only_of, type_in};
ghost use Rattle.check_list.specs.Inner.LineViews.{line_of};

use crate::check_kind::{CheckKind, kind_named};
use text_rows::{first_field, is_word};

/// A line `KEY = VALUE ..`.
#[derive(Clone, Copy)]
pub struct SettingLine<'a> {
    pub key: &'a [u8],
    /// The text that follows the sign.
    pub values: &'a [u8],
}

/// A line of a list.
#[derive(Clone, Copy)]
pub enum Line<'a> {
    /// `[NAME]`.
    Heading(&'a [u8]),
    Setting(SettingLine<'a>),
}

fn are_name_bytes(text: &[u8]) -> bool
    ensures { result ≡ list_all is_name_byte text.now }
{
    text.iter()
        .all(|byte| 0x21 <= *byte && *byte <= 0x7e && *byte != b']')
}

// The name between the brackets of a heading.
fn heading_in(field: &[u8]) -> Option<&[u8]>
    ensures { option_map (λ name. name.now) result ≡ heading_in field.now }
{
    if field.len() < 3 {
        return None;
    }
    let last = field.len() - 1;
    if field[0] != b'[' || field[last] != b']' {
        return None;
    }
    let name = &field[1..last];
    if are_name_bytes(name) {
        Some(name)
    } else {
        None
    }
}

// Whether all fields of a text are words.
fn are_words(text: &[u8]) -> bool
    ensures { result ≡ list_all is_word (fields_in text.now) }
{
    let mut rest = text;
    while let Some((field, after)) = first_field(rest) {
        if !is_word(field) {
            return false;
        }
        rest = after;
    }
    true
}

// The field of a text that has one alone.
fn only_field(text: &[u8]) -> Option<&[u8]>
    ensures { option_map (λ field. field.now) result ≡ only_of (fields_in text.now) }
{
    let Some((field, rest)) = first_field(text) else {
        return None;
    };
    match first_field(rest) {
        None => Some(field),
        Some(_) => None,
    }
}

// A setting of that key, where what follows the key is a sign and values.
fn setting_in<'a>(key: &'a [u8], sign: &[u8], values: &'a [u8]) -> Option<Line<'a>>
    ensures { option_map line_of result ≡ line_in (key.now ∷ sign.now ∷ fields_in values.now) }
{
    if sign != b"=".as_slice() || first_field(values).is_none() {
        return None;
    }
    if !is_word(key) || !are_words(values) {
        return None;
    }
    Some(Line::Setting(SettingLine { key, values }))
}

/// What the line says.
pub fn line_in(text: &[u8]) -> Option<Line<'_>>
    ensures { option_map line_of result ≡ line_in (fields_in text.now) }
{
    let Some((first, rest)) = first_field(text) else {
        return None;
    };
    match first_field(rest) {
        None => match heading_in(first) {
            Some(name) => Some(Line::Heading(name)),
            None => None,
        },
        Some((sign, values)) => setting_in(first, sign, values),
    }
}

/// The kind that a first setting gives a check.
pub fn type_in(key: &[u8], values: &[u8]) -> Option<CheckKind>
    ensures { result ≡ type_in key.now (fields_in values.now) }
{
    if key != b"check_type".as_slice() {
        return None;
    }
    match only_field(values) {
        Some(word) => kind_named(word),
        None => None,
    }
}

/// Whether a text is the one word `true` or `false`.
pub fn is_truth(values: &[u8]) -> bool
    ensures { result ≡ is_truth (fields_in values.now) }
{
    match only_field(values) {
        Some(word) => word == b"true".as_slice() || word == b"false".as_slice(),
        None => false,
    }
}
