// What a check is about.
ghost use Rattle.std.specs.Prelude.{◌≡◌};
ghost use Rattle.check_list.specs.CheckWords.{kind_named, kind_word};

/// The kinds of checks.
#[derive(Clone, Copy, Debug, PartialEq, Eq)]
pub enum CheckKind {
    /// `assert_te`: no allow rule gives the access, but for the exempt ones.
    AssertTe,
    /// `empty_typeattr`: attributes have no members.
    EmptyTypeattr,
    /// `ro_execs`: what is executed is not written to.
    RoExecs,
}

impl CheckKind {
    /// The kind's word in a list.
    pub fn word(&self) -> &'static str
        ensures { result.now ≡ kind_word self.now }
    {
        match self {
            CheckKind::AssertTe => "assert_te",
            CheckKind::EmptyTypeattr => "empty_typeattr",
            CheckKind::RoExecs => "ro_execs",
        }
    }
}

/// The kind of that word.
pub fn kind_named(word: &[u8]) -> Option<CheckKind>
    ensures { result ≡ kind_named word.now }
{
    if word == b"assert_te".as_slice() {
        return Some(CheckKind::AssertTe);
    }
    if word == b"empty_typeattr".as_slice() {
        return Some(CheckKind::EmptyTypeattr);
    }
    if word == b"ro_execs".as_slice() {
        return Some(CheckKind::RoExecs);
    }
    None
}
