//! The permissions of a class in the order of their names.

ghost use Rattle.std.specs.Prelude.{◌≡◌, ◌++◌, [], IfOk, OnOk};
ghost use Rattle.std.specs.Cmp.Lexicographic.{slice_cmp};
ghost use Rattle.std.specs.List.Sorted.{IsPermutation, IsSortedBy};
ghost use Rattle.std.specs.Ordering.{nat_cmp};
ghost use Rattle.pol_symtab.specs.SymbolTables.{is_below};
ghost use Rattle.pol_symbols.specs.PolicySymbols.{permissions_of};
ghost use Rattle.rule_text.specs.Inner.ClassPermissions.{AreByName};

use pol_classes::ClassView;
use pol_commons::{PermissionList, PermissionView, inherited_from};
use pol_symbols::Symbols;
use std::alloc::{AllocError, Global};
use std::cmp::Ordering;
use std::marker::Model;

/// Permissions, one after the other. Contracts see the list of them.
#[derive(Drop)]
pub(crate) struct ClassPermissions<'a> {
    permissions: Vec<PermissionView<'a>>,
}

impl<'a> Model for ClassPermissions<'a> {
    ghost use Rattle.std.specs.Prelude.{List};
    ghost use Rattle.pol_commons.specs.declared.PermissionRec.{PermissionRec};

    ghost Value = { List PermissionRec };

    ghost view = { λ list. list.permissions.items };
}

impl<'a> ClassPermissions<'a> {
    /// No permission.
    pub(crate) fn none(alloc: Global) -> ClassPermissions<'a>
        ensures { result ≡ [] }
    {
        ClassPermissions {
            permissions: Vec::new(alloc),
        }
    }

    /// The permissions of a class, with those of its common, in the order of their names.
    #[tactic(auto, using(crate::proofs::ByName::by_name))]
    pub(crate) fn by_name(
        alloc: Global,
        symbols: &Symbols<'a>,
        class: &ClassView<'a>,
    ) -> Result<ClassPermissions<'a>, AllocError>
        ensures { IfOk result (λ sorted. AreByName (permissions_of symbols.now class.now.value) sorted) }
    {
        let mut permissions = permissions_of(alloc, symbols, class)?;
        sort_by_name(&mut permissions);
        Ok(ClassPermissions { permissions })
    }

    /// All of them.
    pub(crate) fn as_slice(&self) -> &[PermissionView<'a>]
        ensures { result.now ≡ self.now }
    {
        &self.permissions
    }
}

// The permissions of a class, its own first.
fn permissions_of<'a>(
    alloc: Global,
    symbols: &Symbols<'a>,
    class: &ClassView<'a>,
) -> Result<Vec<PermissionView<'a>>, AllocError>
    ensures { IfOk result (λ permissions. permissions.items ≡ permissions_of symbols.now class.now.value) }
{
    let mut permissions = Vec::new(alloc);
    push_list(&mut permissions, class.permissions())?;
    push_list(
        &mut permissions,
        inherited_from(&symbols.commons, class.common()),
    )?;
    Ok(permissions)
}

// Adds permissions behind others.
fn push_list<'a>(
    permissions: &mut Vec<PermissionView<'a>>,
    list: PermissionList<'a>,
) -> Result<(), AllocError>
    ensures { OnOk result (permissions.new.items ≡ permissions.old.items ++ list.entry) }
{
    for permission in list {
        permissions.push(permission)?;
    }
    Ok(())
}

// Sorts permissions by their names.
fn sort_by_name(permissions: &mut Vec<PermissionView<'_>>)
    ensures same { IsPermutation permissions.old.items permissions.new.items }
    ensures rise { IsSortedBy (λ permission other. is_below permission.name other.name) permissions.new.items }
{
    permissions.sort_unstable_by(by_name);
}

// How the names of two permissions compare by their bytes.
fn by_name(permission: &PermissionView<'_>, other: &PermissionView<'_>) -> Ordering
    ensures { result ≡ slice_cmp nat_cmp permission.now.name other.now.name }
{
    permission.name().cmp(other.name())
}
