//! The permissions of each class of a policy in the order of their names.

ghost use Rattle.std.specs.Prelude.{[], ◌<◌, IfOk};
ghost use Rattle.pol_symbols.specs.PolicySymbols.{permissions_in_class};
ghost use Rattle.rule_text.specs.Inner.ClassPermissions.{AreByName, AreOfClasses};

use crate::class_permissions::ClassPermissions;
use pol_commons::PermissionView;
use pol_symbols::Symbols;
use std::alloc::{AllocError, Global};
use std::marker::Model;

/// One list for each class, in the order of the file. Contracts see the lists.
#[derive(Drop)]
pub(crate) struct PermissionTable<'a> {
    classes: Vec<ClassPermissions<'a>>,
}

impl<'a> Model for PermissionTable<'a> {
    ghost use Rattle.std.specs.Prelude.{List};
    ghost use Rattle.pol_commons.specs.declared.PermissionRec.{PermissionRec};

    ghost Value = { List (List PermissionRec) };

    ghost view = { λ table. table.classes.items };
}

impl<'a> PermissionTable<'a> {
    /// The permissions of all classes.
    #[tactic(auto, using(crate::proofs::PermissionLists::first_none))]
    pub(crate) fn new(
        alloc: Global,
        symbols: &Symbols<'a>,
    ) -> Result<PermissionTable<'a>, AllocError>
        ensures { IfOk result (λ table. AreOfClasses symbols.now table) }
    {
        let mut classes = Vec::new(alloc);
        for i in 0..symbols.classes.len() {
            classes.push(ClassPermissions::by_name(alloc, symbols, &symbols.classes.view(i))?)?;
        }
        Ok(PermissionTable { classes })
    }

    /// The permissions of the class of a value, or none where no class has it.
    pub(crate) fn of_class(&self, symbols: &Symbols<'a>, class: u32) -> &[PermissionView<'a>]
        requires { AreOfClasses symbols.now self.now }
        ensures { AreByName (permissions_in_class symbols.now class) result.now }
    {
        match symbols.classes.by_value(class) {
            Some(i) => self.classes[i as usize].as_slice(),
            None => &[],
        }
    }
}
