//! The records of the symbol tables by their numbers in the file, for who goes through a table; `by_value` and `by_name` find one.

ghost use Rattle.std.specs.Prelude.{◌≡◌, ◌<◌, Some, slice_get, length};

use crate::symbols::Symbols;
use crate::user_view::UserView;
use pol_classes::ClassView;
use pol_commons::CommonView;
use pol_datums::{BooleanView, CategoryView, RoleView, SensitivityView, TypeView};

impl<'a> Symbols<'a> {
    /// The common of that number, from 0 on, in the order of the file.
    pub fn common_view(&self, i: u32) -> CommonView<'a>
        requires { i < length self.now.commons.records }
        ensures { slice_get self.now.commons.records i ≡ Some result }
    {
        self.commons.view(i)
    }

    /// The class of that number, from 0 on, in the order of the file.
    pub fn class_view(&self, i: u32) -> ClassView<'a>
        requires { i < length self.now.classes.records }
        ensures { slice_get self.now.classes.records i ≡ Some result }
    {
        self.classes.view(i)
    }

    /// The role of that number, from 0 on, in the order of the file.
    pub fn role_view(&self, i: u32) -> RoleView<'a>
        requires { i < length self.now.roles.records }
        ensures { slice_get self.now.roles.records i ≡ Some result }
    {
        self.roles.view(i)
    }

    /// The type of that number, from 0 on, in the order of the file.
    pub fn type_view(&self, i: u32) -> TypeView<'a>
        requires { i < length self.now.types.records }
        ensures { slice_get self.now.types.records i ≡ Some result }
    {
        self.types.view(i)
    }

    /// The user of that number, from 0 on, in the order of the file.
    pub fn user_view(&self, i: u32) -> UserView<'a>
        requires { i < length self.now.users.records }
        ensures { slice_get self.now.users.records i ≡ Some result }
    {
        self.users.view(i)
    }

    /// The boolean of that number, from 0 on, in the order of the file.
    pub fn boolean_view(&self, i: u32) -> BooleanView<'a>
        requires { i < length self.now.booleans.records }
        ensures { slice_get self.now.booleans.records i ≡ Some result }
    {
        self.booleans.view(i)
    }

    /// The sensitivity of that number, from 0 on, in the order of the file.
    pub fn sensitivity_view(&self, i: u32) -> SensitivityView<'a>
        requires { i < length self.now.levels.records }
        ensures { slice_get self.now.levels.records i ≡ Some result }
    {
        self.levels.view(i)
    }

    /// The category of that number, from 0 on, in the order of the file.
    pub fn category_view(&self, i: u32) -> CategoryView<'a>
        requires { i < length self.now.categories.records }
        ensures { slice_get self.now.categories.records i ≡ Some result }
    {
        self.categories.view(i)
    }
}
