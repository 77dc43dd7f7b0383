// Words that are cut into groups by a table of options.
ghost use Rattle.std.specs.Prelude.{◌≡◌, ◌+◌, ◌<◌, ◌≤◌, ◌^◌, ◌++◌, IfOk, OnOk, OnSome, length, map, option_map};
ghost use Rattle.std.specs.Option.{option_to_list};
ghost use Rattle.se_words.specs.Options.{
  alone_head,
  Given,
  group_view,
  groups_of,
  head,
  head_of,
  head_view,
  joined_head,
  named,
  naming_head,
  option_head,
  positional_head,
  row_view,
  takes_view,
  valued_head,
  value_of_word,
};
ghost use Rattle.se_words.specs.Word.{begins_with_dash, text_of};

use crate::rows::Spelling;
use crate::{Group, Named, OptionRow, Takes, Word};
use std::alloc::{AllocError, Global};

/// How the words that come are read.
#[derive(Clone, Copy, Debug)]
pub struct WordMode {
    /// `--` came: all words are positional.
    pub closed: bool,
    /// So many positional words may come.
    pub free: u64,
}

/// What some words begin with.
#[derive(Clone, Copy, Debug)]
pub struct Head<'w> {
    /// The group, if the word is not `--`.
    pub group: Option<Group<'w>>,
    /// How many further words belong to the group.
    pub further: usize,
    /// How the words after it are read.
    pub mode: WordMode,
}

/// The groups of the words after a tool's name, where so many positional words may come. A word that does not fit is a group too: the
/// words after it still tell which options are given.
pub fn groups_of<'w>(
    alloc: Global,
    rows: &[OptionRow],
    free: u64,
    words: &'w [Word],
) -> Result<Vec<Group<'w>>, AllocError>
    ensures { IfOk result (λ groups. map group_view groups.items ≡ groups_of (map row_view rows.now) free (map text_of words.now)) }
{
    let mut groups = Vec::new(alloc);
    let mut mode = WordMode {
        closed: false,
        free,
    };
    let mut number = 2;
    let mut rest = words;
    'groups: while let Some((word, after)) = rest.split_first() {
        let head = head_of(rows, mode, number, word, after);
        push_group(head.group, &mut groups)?;
        number += 1 + head.further as u64;
        rest = &after[head.further..];
        mode = head.mode;
    }
    Ok(groups)
}

// Adds the group, if there is one.
fn push_group<'w>(group: Option<Group<'w>>, groups: &mut Vec<Group<'w>>) -> Result<(), AllocError>
    ensures { OnOk result (groups.new.items ≡ groups.old.items ++ option_to_list group.entry) }
{
    match group {
        Some(group) => Ok(groups.push(group)?),
        None => Ok(()),
    }
}

// What the word of that number and those after it begin with.
#[tactic(auto, unfolding(crate::specs::Options::head_of))]
fn head_of<'w>(
    rows: &[OptionRow],
    mode: WordMode,
    number: u64,
    word: &'w Word,
    after: &'w [Word],
) -> Head<'w>
    requires { number < 2 ^ 63 }
    ensures head { head_view result ≡ head_of (map row_view rows.now) mode number (text_of word.now) (map text_of after.now) }
    ensures within { result.further ≤ length after.now }
{
    let Word::Text(text) = word else {
        return head_with(mode, Group::Misfit(number), 0);
    };
    let text = text.as_str();
    if mode.closed || !begins_with_dash(text) {
        return positional_head(mode, number, text);
    }
    if text == "--" {
        return Head {
            group: None,
            further: 0,
            mode: WordMode {
                closed: true,
                free: mode.free,
            },
        };
    }
    option_head(rows, mode, number, text, after)
}

// The head where the word is positional, which `-` alone never is.
fn positional_head<'w>(mode: WordMode, number: u64, text: &'w str) -> Head<'w>
    ensures head { head_view result ≡ positional_head mode number text.now }
    ensures alone { result.further ≡ 0 }
{
    if mode.free == 0 || text == "-" {
        return head_with(mode, Group::Misfit(number), 0);
    }
    let mode = WordMode {
        closed: mode.closed,
        free: mode.free - 1,
    };
    head_with(mode, Group::Positional(Named { text, word: number }), 0)
}

// The head where the word is an option.
#[tactic(auto, unfolding(crate::specs::Options::option_head))]
fn option_head<'w>(
    rows: &[OptionRow],
    mode: WordMode,
    number: u64,
    text: &'w str,
    after: &'w [Word],
) -> Head<'w>
    requires { number < 2 ^ 63 }
    ensures head { head_view result ≡ option_head (map row_view rows.now) mode number text.now (map text_of after.now) }
    ensures within { result.further ≤ length after.now }
{
    for row in rows {
        match row.spelling(text) {
            Spelling::Other => {}
            Spelling::Alone => return alone_head(mode, number, *row, after),
            Spelling::Joined(value) => return joined_head(mode, number, *row, value),
        }
    }
    head_with(mode, Group::Misfit(number), 0)
}

// The head where the word is the option of the row alone.
fn alone_head<'w>(mode: WordMode, number: u64, row: OptionRow, after: &'w [Word]) -> Head<'w>
    requires { number < 2 ^ 63 }
    ensures head { head_view result ≡ alone_head mode number (row_view row) (takes_view row.takes) (map text_of after.now) }
    ensures within { result.further ≤ length after.now }
{
    match row.takes {
        Takes::Nothing => head_with(mode, Group::Given { row, value: None }, 0),
        Takes::OptionalName => naming_head(mode, number, row, after),
        Takes::Value(_) => valued_head(mode, number, row, after),
    }
}

// The head where the option may take a name: the next word, if that may be a value.
fn naming_head<'w>(mode: WordMode, number: u64, row: OptionRow, after: &'w [Word]) -> Head<'w>
    requires { number < 2 ^ 63 }
    ensures head { head_view result ≡ naming_head mode number (row_view row) (map text_of after.now) }
    ensures within { result.further ≤ length after.now }
{
    let Some(word) = after.first() else {
        return head_with(mode, Group::Given { row, value: None }, 0);
    };
    match value_of_word(word) {
        None => head_with(mode, Group::Given { row, value: None }, 0),
        Some(text) => given_next(mode, number, row, text),
    }
}

// The head where the option takes a value: the next word, which is used up where it may be no value.
fn valued_head<'w>(mode: WordMode, number: u64, row: OptionRow, after: &'w [Word]) -> Head<'w>
    requires { number < 2 ^ 63 }
    ensures head { head_view result ≡ valued_head mode number (row_view row) (map text_of after.now) }
    ensures within { result.further ≤ length after.now }
{
    let Some(word) = after.first() else {
        return head_with(mode, Group::Misfit(number + 1), 0);
    };
    match value_of_word(word) {
        None => head_with(mode, Group::Misfit(number + 1), 1),
        Some(text) => given_next(mode, number, row, text),
    }
}

// The head of an option with the next word as its value.
fn given_next<'w>(mode: WordMode, number: u64, row: OptionRow, text: &'w str) -> Head<'w>
    requires { number < 2 ^ 63 }
    ensures head { head_view result ≡ head (Given (row_view row) (Some (named text.now (number + 1)))) 1 mode }
    ensures next { result.further ≡ 1 }
{
    let value = Some(Named {
        text,
        word: number + 1,
    });
    head_with(mode, Group::Given { row, value }, 1)
}

// The head where the word is the option of the row with a value after `=`.
fn joined_head<'w>(mode: WordMode, number: u64, row: OptionRow, text: &'w str) -> Head<'w>
    ensures head { head_view result ≡ joined_head mode number (row_view row) (takes_view row.takes) text.now }
    ensures alone { result.further ≡ 0 }
{
    match row.takes {
        Takes::Nothing => head_with(mode, Group::Misfit(number), 0),
        Takes::OptionalName | Takes::Value(_) => {
            let value = Some(Named { text, word: number });
            head_with(mode, Group::Given { row, value }, 0)
        }
    }
}

// A head with that group.
fn head_with<'w>(mode: WordMode, group: Group<'w>, further: usize) -> Head<'w>
    ensures { result ≡ record { group = Some group.entry; further = further; mode = mode } }
{
    Head {
        group: Some(group),
        further,
        mode,
    }
}

// The text of the word, if it may be a value.
fn value_of_word<'w>(word: &'w Word) -> Option<&'w str>
    ensures { option_map (λ text. text.now) result ≡ value_of_word (text_of word.now) }
{
    match word {
        Word::Text(text) if !begins_with_dash(text.as_str()) => Some(text.as_str()),
        _ => None,
    }
}

// Whether the text begins with `-`.
fn begins_with_dash(text: &str) -> bool
    ensures { result ≡ begins_with_dash text.now }
{
    text.as_bytes().first() == Some(&b'-')
}
