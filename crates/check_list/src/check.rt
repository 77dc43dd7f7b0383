// A check of a list, and its settings.
ghost use Rattle.std.specs.Prelude.{◌≡◌, ◌==◌, map, option_map};
ghost use Rattle.std.specs.List.{find, list_any};
ghost use Rattle.check_list.specs.CheckWords.{key_number};
ghost use Rattle.check_list.specs.declared.list_fault.ListError.TheVariants.{Fault};
ghost use Rattle.check_list.specs.Checklists.{has_key, may_be};
ghost use Rattle.check_list.specs.Inner.LineViews.{setting_of};
ghost use Rattle.text_rows.specs.TextLines.{fields_in};

use crate::check_key::{CheckKey, is_same_key, key_named};
use crate::check_kind::CheckKind;
use crate::lines::{SettingLine, is_truth};
use crate::list_fault::{ListCause, ListError, ListFault};
use std::alloc::Global;
use std::marker::Model;

/// A setting of a check.
#[derive(Clone, Copy)]
pub struct Setting<'a> {
    pub key: CheckKey,
    /// The number of its line, from 1 on.
    pub line: u32,
    /// The text whose fields are its values.
    pub values: &'a [u8],
}

/// A check of a list: its name, its kind, and its settings in the order of their lines.
#[derive(Drop)]
pub struct Check<'a> {
    name: &'a [u8],
    kind: CheckKind,
    settings: Vec<Setting<'a>>,
}

impl<'a> Model for Check<'a> {
    ghost use Rattle.std.specs.Prelude.{map};
    ghost use Rattle.check_list.specs.Checklists.{Check};
    ghost use Rattle.check_list.specs.Inner.LineViews.{setting_of};

    ghost Value = { Check };

    ghost view = { λ c. record { name = c.name.now; kind = c.kind; settings = map setting_of c.settings.items } };
}

fn is_set(key: CheckKey, settings: &[Setting<'_>]) -> bool
    ensures { result ≡ list_any (λ setting. key_number key == key_number setting.key) settings.now }
{
    settings.iter().any(|setting| is_same_key(key, setting.key))
}

// Whether one of the settings has the key.
fn has_key(key: CheckKey, settings: &[Setting<'_>]) -> bool
    ensures { result ≡ has_key key (map setting_of settings.now) }
{
    is_set(key, settings)
}

// The setting of a key, if there is one.
fn setting_with<'s, 'a>(key: CheckKey, settings: &'s [Setting<'a>]) -> Option<&'s Setting<'a>>
    ensures { option_map (λ setting. setting.now) result ≡ find (λ setting. key_number key == key_number setting.key) settings.now }
{
    settings
        .iter()
        .find(|setting| is_same_key(key, setting.key))
}

impl<'a> Check<'a> {
    ghost use Rattle.std.specs.Prelude.{◌≡◌, [], map, option_map};
    ghost use Rattle.check_list.specs.Checklists.{Answers, check_with, given, is_whole, listed};
    ghost use Rattle.check_list.specs.Inner.LineViews.{setting_of};
    ghost use Rattle.text_rows.specs.TextLines.{fields_in};

    /// A check that has no settings yet.
    pub(crate) fn new(alloc: Global, name: &'a [u8], kind: CheckKind) -> Check<'a>
        ensures { result ≡ record { name = name.now; kind = kind; settings = [] } }
    {
        Check {
            name,
            kind,
            settings: Vec::new(alloc),
        }
    }

    /// The check with one more setting, which the line of that number has.
    pub(crate) fn with_setting(
        self,
        number: u32,
        line: SettingLine<'a>,
    ) -> Result<Check<'a>, ListError>
        ensures { Answers (check_with self.entry number line.entry.key.now (fields_in line.entry.values.now)) result }
    {
        let Check {
            name,
            kind,
            mut settings,
        } = self;
        let Some(key) = key_named(kind, line.key) else {
            return Err(refused(number, ListCause::BadKey));
        };
        if has_key(key, &settings) {
            return Err(refused(number, ListCause::BadKey));
        }
        if !may_be(key, line.values) {
            return Err(refused(number, ListCause::BadValue));
        }
        settings.push(Setting {
            key,
            line: number,
            values: line.values,
        })?;
        Ok(Check {
            name,
            kind,
            settings,
        })
    }

    /// Whether the check has what its kind needs.
    pub(crate) fn is_whole(&self) -> bool
        ensures { result ≡ is_whole self.now }
    {
        match self.kind {
            CheckKind::EmptyTypeattr => has_key(CheckKey::Attr, &self.settings),
            CheckKind::AssertTe => true,
            CheckKind::RoExecs => true,
        }
    }

    pub fn name(&self) -> &'a [u8]
        ensures { result.now ≡ self.now.name }
    {
        self.name
    }

    pub fn kind(&self) -> CheckKind
        ensures { result ≡ self.now.kind }
    {
        self.kind
    }

    pub fn settings(&self) -> &[Setting<'a>]
        ensures { map setting_of result.now ≡ self.now.settings }
    {
        &self.settings
    }

    /// The text whose fields are the values of a key, if the key is given.
    pub fn given(&self, key: CheckKey) -> Option<&'a [u8]>
        ensures { option_map (λ values. fields_in values.now) result ≡ given self.now key }
    {
        match setting_with(key, &self.settings) {
            Some(setting) => Some(setting.values),
            None => None,
        }
    }

    /// The text whose fields are the values of a key. It has none where the key is not given.
    #[tactic(auto, unfolding(text_rows::specs::TextLines::fields_in))]
    pub fn listed(&self, key: CheckKey) -> &'a [u8]
        ensures { fields_in result.now ≡ listed self.now key }
    {
        match self.given(key) {
            Some(values) => values,
            None => &[],
        }
    }
}

// Whether the values may stand for the key.
fn may_be(key: CheckKey, values: &[u8]) -> bool
    ensures { result ≡ may_be key (fields_in values.now) }
{
    match key {
        CheckKey::MissingOk => is_truth(values),
        _ => true,
    }
}

/// The fault at that line.
pub(crate) fn refused(line: u32, cause: ListCause) -> ListError
    ensures { result ≡ Fault (record { line = line; cause = cause }) }
{
    ListError::Fault(ListFault { line, cause })
}
