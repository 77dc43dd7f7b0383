//! The defaults of classes, as one list.

ghost use Rattle.std.specs.Prelude.{◌≡◌, ◌<◌, ◌∷◌, [], ◌++◌, IfOk, OnOk, length};
ghost use Rattle.std.specs.List.{All};
ghost use Rattle.info_classes.specs.RecordOrder.{records_at};
ghost use Rattle.info_classes.specs.DefaultLines.{default_of, entries_in};

use pol_classes::ClassView;
use pol_symbols::Symbols;
use std::alloc::{AllocError, Global};

/// What a new object has by default.
#[derive(Clone, Copy, Debug, PartialEq, Eq)]
pub enum DefaultKind {
    OfUser,
    OfRole,
    OfType,
    OfRange,
}

/// A class and a default that it has.
#[derive(Drop)]
pub struct DefaultEntry<'a> {
    pub class: ClassView<'a>,
    pub kind: DefaultKind,
}

/// The defaults that the classes of these numbers have. Those of a class are in the order user, role, type, range.
pub fn default_entries<'a>(
    alloc: Global,
    symbols: &Symbols<'a>,
    numbers: &[u32],
) -> Result<Vec<DefaultEntry<'a>>, AllocError>
    requires { All (λ n. n < length symbols.now.classes.records) numbers.now }
    ensures { IfOk result (λ entries. entries.items ≡ entries_in (records_at symbols.now.classes.records numbers.now)) }
{
    let mut entries = Vec::new(alloc);
    for number in numbers {
        push_entries(&mut entries, symbols, *number)?;
    }
    Ok(entries)
}

// Adds those of the class of a number.
fn push_entries<'a>(
    entries: &mut Vec<DefaultEntry<'a>>,
    symbols: &Symbols<'a>,
    number: u32,
) -> Result<(), AllocError>
    requires { number < length symbols.now.classes.records }
    ensures { OnOk result (entries.new.items ≡ entries.old.items ++ entries_in (records_at symbols.now.classes.records (number ∷ []))) }
{
    let found = symbols.classes.view(number);
    for kind in [
        DefaultKind::OfUser,
        DefaultKind::OfRole,
        DefaultKind::OfType,
        DefaultKind::OfRange,
    ] {
        if default_of(&found, kind) != 0 {
            let class = symbols.classes.view(number);
            entries.push(DefaultEntry { class, kind })?;
        }
    }
    Ok(())
}

/// The default of a kind, and 0 where the class has none.
pub(crate) fn default_of(class: &ClassView<'_>, kind: DefaultKind) -> u32
    ensures { result ≡ default_of kind class.now.value }
{
    match kind {
        DefaultKind::OfUser => class.default_user(),
        DefaultKind::OfRole => class.default_role(),
        DefaultKind::OfType => class.default_type(),
        DefaultKind::OfRange => class.default_range(),
    }
}
