//! The entries of classes.

ghost use Rattle.std.specs.Prelude.{◌≡◌, ◌<◌, ◌++◌, IfOk, OnOk, length, map};
ghost use Rattle.std.specs.List.{All, fold};
ghost use Rattle.pol_symbols.specs.PolicySymbols.{permissions_of};
ghost use Rattle.pol_texts.specs.NameLists.{with_name};
ghost use Rattle.info_classes.specs.RecordOrder.{records_at};
ghost use Rattle.diff_parts.specs.EntryParts.{permission_names};
ghost use Rattle.diff_records.specs.ClassEntries.{class_entries, permissions_behind};

use crate::records::{ComparedRecord, RecordEntries};
use diff_entries::{Key, Label, Part};
use diff_parts::{names_part, one_part, push_named};
use info_lines::{insert_name, primary_order, push_set};
use pol_classes::ClassView;
use pol_commons::{PermissionList, inherited_from};
use pol_fields::TableKind;
use pol_read::Policy;
use pol_symbols::Symbols;
use std::alloc::{AllocError, Global};

impl<'a> ComparedRecord for ClassView<'a> {
    ghost use Rattle.diff_records.specs.ClassEntries.{class_entry};

    ghost entry = { λ symbols class. class_entry symbols class.value };

    #[tactic(auto, unfolding(crate::specs::ClassEntries::class_entry))]
    fn key(&self, alloc: Global, symbols: &Symbols<'_>) -> Result<Key, AllocError> {
        Key::of_name(alloc, self.name())
    }

    #[tactic(auto, unfolding(crate::specs::ClassEntries::class_entry))]
    fn parts<'r>(
        &'r self,
        alloc: Global,
        symbols: &'r Symbols<'_>,
    ) -> Result<Vec<Part<'r>>, AllocError> {
        let names = permission_names(alloc, symbols, self)?;
        one_part(alloc, names_part(Label::Unnamed, names))
    }

    #[tactic(auto, unfolding(crate::specs::ClassEntries::class_entry))]
    fn push_statement(
        &self,
        symbols: &Symbols<'_>,
        buffer: &mut Vec<u8>,
    ) -> Result<(), AllocError> {
        let names = permission_names(*buffer.allocator(), symbols, self)?;
        push_named(buffer, b"class ", self.name())?;
        push_behind(buffer, &names)
    }

    #[tactic(auto, unfolding(crate::specs::ClassEntries::class_entry))]
    fn push_head(&self, symbols: &Symbols<'_>, buffer: &mut Vec<u8>) -> Result<(), AllocError> {
        push_named(buffer, b"class ", self.name())
    }
}

// Adds the set of permissions, where there are some.
fn push_behind(buffer: &mut Vec<u8>, names: &[&[u8]]) -> Result<(), AllocError>
    ensures { OnOk result (buffer.new.items ≡ buffer.old.items ++ permissions_behind (map (λ name. name.now) names.now)) }
{
    if names.len() == 0 {
        return Ok(());
    }
    buffer.push(b' ')?;
    push_set(buffer, names)
}

// The names of the permissions of a class and of its common, in order.
fn permission_names<'r>(
    alloc: Global,
    symbols: &'r Symbols<'_>,
    class: &'r ClassView<'_>,
) -> Result<Vec<&'r [u8]>, AllocError>
    ensures { IfOk result (λ names. map (λ name. name.now) names.items ≡ permission_names (permissions_of symbols.now class.now.value)) }
{
    let mut names = Vec::new(alloc);
    insert_names(&mut names, class.permissions())?;
    insert_names(&mut names, inherited_from(&symbols.commons, class.common()))?;
    Ok(names)
}

// Puts the names of permissions among others that are in order.
fn insert_names<'r>(
    names: &mut Vec<&'r [u8]>,
    permissions: PermissionList<'r>,
) -> Result<(), AllocError>
    ensures { OnOk result (map (λ name. name.now) names.new.items ≡ fold (λ sorted name. with_name name sorted) (map (λ name. name.now) names.old.items) (map (λ permission. permission.name) permissions.entry)) }
{
    for permission in permissions {
        insert_name(names, permission.name())?;
    }
    Ok(())
}

// The classes of these numbers.
fn classes_at<'a>(
    alloc: Global,
    symbols: &Symbols<'a>,
    numbers: &[u32],
) -> Result<Vec<ClassView<'a>>, AllocError>
    requires { All (λ n. n < length symbols.now.classes.records) numbers.now }
    ensures { IfOk result (λ classes. classes.items ≡ records_at symbols.now.classes.records numbers.now) }
{
    let mut classes = Vec::new(alloc);
    for number in numbers {
        classes.push(symbols.classes.view(*number))?;
    }
    Ok(classes)
}

/// The entries of the classes of a policy. Each has the set of its permissions, those of its common among them.
#[tactic(auto, unfolding(crate::specs::ClassEntries::class_entries))]
pub fn class_entries<'p, 'a>(
    alloc: Global,
    policy: &'p Policy<'a>,
) -> Result<RecordEntries<'p, 'a, ClassView<'a>>, AllocError>
    ensures { IfOk result (λ entries. entries ≡ class_entries policy.now) }
{
    let symbols = policy.symbols();
    let numbers = primary_order(alloc, symbols, TableKind::Classes)?;
    Ok(RecordEntries::new(symbols, classes_at(alloc, symbols, &numbers)?))
}
