//! The constraints of classes, as one list.

ghost use Rattle.std.specs.Prelude.{◌≡◌, ◌<◌, ◌∷◌, [], ◌++◌, IfOk, OnOk, length};
ghost use Rattle.std.specs.List.{All};
ghost use Rattle.info_classes.specs.RecordOrder.{records_at};
ghost use Rattle.info_classes.specs.ConstraintLines.{constraints_of, entries_in};

use pol_classes::{ClassView, ConstraintList};
use pol_constraints::ConstraintView;
use pol_symbols::Symbols;
use std::alloc::{AllocError, Global};

/// What constraints are on.
#[derive(Clone, Copy, Debug, PartialEq, Eq)]
pub enum ConstraintKind {
    /// The use of permissions.
    OnPermissions,
    /// A change of an object's context.
    OnChange,
}

/// A constraint with its class.
#[derive(Drop)]
pub struct ConstraintEntry<'a> {
    pub class: ClassView<'a>,
    pub constraint: ConstraintView<'a>,
}

/// The constraints of a kind of the classes of these numbers, in file order within a class.
pub fn constraint_entries<'a>(
    alloc: Global,
    symbols: &Symbols<'a>,
    kind: ConstraintKind,
    numbers: &[u32],
) -> Result<Vec<ConstraintEntry<'a>>, AllocError>
    requires { All (λ n. n < length symbols.now.classes.records) numbers.now }
    ensures { IfOk result (λ entries. entries.items ≡ entries_in kind (records_at symbols.now.classes.records numbers.now)) }
{
    let mut entries = Vec::new(alloc);
    for number in numbers {
        push_entries(&mut entries, symbols, kind, *number)?;
    }
    Ok(entries)
}

// Adds those of the class of a number.
fn push_entries<'a>(
    entries: &mut Vec<ConstraintEntry<'a>>,
    symbols: &Symbols<'a>,
    kind: ConstraintKind,
    number: u32,
) -> Result<(), AllocError>
    requires { number < length symbols.now.classes.records }
    ensures { OnOk result (entries.new.items ≡ entries.old.items ++ entries_in kind (records_at symbols.now.classes.records (number ∷ []))) }
{
    let found = symbols.classes.view(number);
    for constraint in constraints_of(&found, kind) {
        let class = symbols.classes.view(number);
        entries.push(ConstraintEntry { class, constraint })?;
    }
    Ok(())
}

// The constraints of a kind of a class.
fn constraints_of<'a>(class: &ClassView<'a>, kind: ConstraintKind) -> ConstraintList<'a>
    ensures { result ≡ constraints_of kind class.now.value }
{
    match kind {
        ConstraintKind::OnPermissions => class.constraints(),
        ConstraintKind::OnChange => class.validatetrans(),
    }
}
