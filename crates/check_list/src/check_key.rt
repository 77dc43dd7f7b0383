// The keys of the settings of a check.
ghost use Rattle.std.specs.Prelude.{◌≡◌, ◌==◌};
ghost use Rattle.check_list.specs.CheckWords.{assert_key, empty_key, execs_key, key_named, key_number};

use crate::check_kind::CheckKind;

/// What a setting of a check says.
#[derive(Clone, Copy, Debug, PartialEq, Eq)]
pub enum CheckKey {
    Source,
    Target,
    Class,
    Perms,
    ExemptSource,
    ExemptTarget,
    Attr,
    MissingOk,
    ExemptFile,
    ExemptWriteDomain,
    ExemptExecDomain,
}

// Keys by numbers, to compare them.
fn key_number(key: CheckKey) -> u8
    ensures { result ≡ key_number key }
{
    match key {
        CheckKey::Source => 0,
        CheckKey::Target => 1,
        CheckKey::Class => 2,
        CheckKey::Perms => 3,
        CheckKey::ExemptSource => 4,
        CheckKey::ExemptTarget => 5,
        CheckKey::Attr => 6,
        CheckKey::MissingOk => 7,
        CheckKey::ExemptFile => 8,
        CheckKey::ExemptWriteDomain => 9,
        CheckKey::ExemptExecDomain => 10,
    }
}

/// Whether two keys are the same one.
pub fn is_same_key(key: CheckKey, other: CheckKey) -> bool
    ensures { result ≡ (key_number key == key_number other) }
{
    key_number(key) == key_number(other)
}

// The key of that word in an `assert_te`.
fn assert_key(word: &[u8]) -> Option<CheckKey>
    ensures { result ≡ assert_key word.now }
{
    if word == b"source".as_slice() {
        return Some(CheckKey::Source);
    }
    if word == b"target".as_slice() {
        return Some(CheckKey::Target);
    }
    if word == b"class".as_slice() {
        return Some(CheckKey::Class);
    }
    if word == b"perms".as_slice() {
        return Some(CheckKey::Perms);
    }
    if word == b"exempt_source".as_slice() {
        return Some(CheckKey::ExemptSource);
    }
    if word == b"exempt_target".as_slice() {
        return Some(CheckKey::ExemptTarget);
    }
    None
}

// The key of that word in an `empty_typeattr`.
fn empty_key(word: &[u8]) -> Option<CheckKey>
    ensures { result ≡ empty_key word.now }
{
    if word == b"attr".as_slice() {
        return Some(CheckKey::Attr);
    }
    if word == b"missing_ok".as_slice() {
        return Some(CheckKey::MissingOk);
    }
    None
}

// The key of that word in a `ro_execs`.
fn execs_key(word: &[u8]) -> Option<CheckKey>
    ensures { result ≡ execs_key word.now }
{
    if word == b"exempt_file".as_slice() {
        return Some(CheckKey::ExemptFile);
    }
    if word == b"exempt_write_domain".as_slice() {
        return Some(CheckKey::ExemptWriteDomain);
    }
    if word == b"exempt_exec_domain".as_slice() {
        return Some(CheckKey::ExemptExecDomain);
    }
    None
}

/// The key of that word in a check of that kind, if the kind has it.
pub fn key_named(kind: CheckKind, word: &[u8]) -> Option<CheckKey>
    ensures { result ≡ key_named kind word.now }
{
    match kind {
        CheckKind::AssertTe => assert_key(word),
        CheckKind::EmptyTypeattr => empty_key(word),
        CheckKind::RoExecs => execs_key(word),
    }
}
