//! The eight symbol tables as one: how they are read, and look-ups by name and value.

ghost use Rattle.std.specs.Prelude.{◌≡◌, ◌<◌, Some, slice_get, true, is_some, option_map};
ghost use Rattle.pol_cursor.specs.Outcome.{Yields};
ghost use Rattle.std.specs.List.{find};
ghost use Rattle.pol_symtab.specs.SymbolTables.{declares};
ghost use Rattle.pol_commons.specs.Permissions.{of_name, of_value};
ghost use Rattle.pol_symbols.specs.Inner.TableNames.{names_in};
ghost use Rattle.pol_symbols.specs.PolicySymbols.{flavour_in, permissions_of, permission_name_in, permission_value_in, permission_mask_in, prims_in, count_in, roles_at, types_at, users_at, booleans_at, levels_at, categories_at, rule_tables_at, other_tables_at, symbols_at, record_names, record_values, value_in, index_in, name_in, rank_in};

use crate::user_kind::User;
use pol_classes::{ClassTable, ClassView, read_class_table};
use pol_commons::{CommonList, PermissionView, inherited_from, read_commons};
use pol_cursor::{Cursor, Names, ReadError};
use pol_datums::{Boolean, Category, Flavour, Role, Sensitivity, Type};
use pol_fields::TableKind;
use pol_symtab::{SymbolTable, TableNames, read_whole_table};
use std::alloc::Global;

/// The eight symbol tables of a policy.
pub struct Symbols<'a> {
    pub commons: CommonList<'a>,
    pub classes: ClassTable<'a>,
    pub roles: SymbolTable<'a, Role>,
    pub types: SymbolTable<'a, Type>,
    pub users: SymbolTable<'a, User>,
    pub booleans: SymbolTable<'a, Boolean>,
    pub levels: SymbolTable<'a, Sensitivity>,
    pub categories: SymbolTable<'a, Category>,
}

// Its parts go in one call, wherever it is dropped.
impl Drop for Symbols<'_> {
    fn drop(self) {
        let Symbols {
            commons,
            classes,
            roles,
            types,
            users,
            booleans,
            levels,
            categories,
        } = self;
    }
}

impl<'a> Symbols<'a> {
    // What the records of a table name.
    fn names(&self, table: TableKind) -> &TableNames<'a>
        ensures { result.now ≡ names_in self.now table }
    {
        match table {
            TableKind::Commons => self.commons.names(),
            TableKind::Classes => self.classes.names(),
            TableKind::Roles => self.roles.names(),
            TableKind::Types => self.types.names(),
            TableKind::Users => self.users.names(),
            TableKind::Booleans => self.booleans.names(),
            TableKind::Levels => self.levels.names(),
            TableKind::Categories => self.categories.names(),
        }
    }

    /// The name of the record of that number, from 0 on.
    #[tactic(auto, using(crate::proofs::TableNames::count_by_names, crate::proofs::TableNames::record_names_by))]
    pub fn record_name(&self, table: TableKind, number: u32) -> &'a [u8]
        requires { number < count_in self.now table }
        ensures { slice_get (record_names self.now table) number ≡ Some result.now }
    {
        self.names(table).name_at(number)
    }

    /// The value that it names, also where it is an alias.
    #[tactic(auto, using(crate::proofs::TableNames::count_by_names, crate::proofs::TableNames::record_values_by))]
    pub fn record_value(&self, table: TableKind, number: u32) -> u32
        requires { number < count_in self.now table }
        ensures { slice_get (record_values self.now table) number ≡ Some result }
    {
        self.names(table).value_at(number)
    }

    /// The value of the record of that name, an alias or not. `None` exactly where no record of the table has it.
    #[tactic(auto, using(crate::proofs::TableNames::value_by))]
    pub fn by_name(&self, table: TableKind, name: &[u8]) -> Option<u32>
        ensures { result ≡ value_in self.now table name.now }
    {
        self.names(table).by_name(name)
    }

    /// The place in the table's list of the primary record of that value. `None` exactly where no primary record declares it.
    #[tactic(auto, using(crate::proofs::TableNames::index_by))]
    pub fn by_value(&self, table: TableKind, value: u32) -> Option<u32>
        ensures { result ≡ index_in self.now table value }
    {
        self.names(table).by_value(value)
    }

    /// The name of the primary record of that value. `None` exactly where no primary record declares it.
    #[tactic(auto, using(crate::proofs::TableNames::name_by))]
    pub fn name_of(&self, table: TableKind, value: u32) -> Option<&'a [u8]>
        ensures { option_map (λ name. name.now) result ≡ name_in self.now table value }
    {
        self.names(table).name_of(value)
    }

    /// Whether a primary record of the table declares that value.
    #[tactic(auto, using(crate::proofs::TableNames::name_by))]
    pub fn declares(&self, table: TableKind, value: u32) -> bool
        ensures { result ≡ is_some (name_in self.now table value) }
    {
        self.names(table).declares(value)
    }

    /// How many primary names of the table are below the name of that value, in the order of their bytes. `None` exactly
    /// where no primary record declares the value.
    #[tactic(auto, using(crate::proofs::TableNames::rank_by))]
    pub fn rank(&self, table: TableKind, value: u32) -> Option<u32>
        ensures { result ≡ rank_in self.now table value }
    {
        self.names(table).rank(value)
    }

    /// The greatest value that the table may declare.
    #[tactic(auto, using(crate::proofs::TableNames::prims_by))]
    pub fn prims(&self, table: TableKind) -> u32
        ensures { result ≡ prims_in self.now table }
    {
        self.names(table).prims()
    }

    /// How many records the table has.
    #[tactic(auto, using(crate::proofs::TableNames::count_by_names))]
    pub fn len(&self, table: TableKind) -> u32
        ensures { result ≡ count_in self.now table }
    {
        self.names(table).len()
    }

    /// Whether the value of a type is declared as an attribute or as none. `None` exactly where no primary record
    /// declares it.
    #[tactic(auto, using(crate::proofs::SymbolSearch::primary_found, crate::proofs::SymbolSearch::primary_missing, crate::proofs::SymbolSearch::primary_is_within))]
    pub fn flavour(&self, value: u32) -> Option<Flavour>
        ensures { result ≡ flavour_in self.now value }
    {
        match self.types.by_value(value) {
            Some(i) => self.types.view(i).flavour(),
            None => None,
        }
    }

    // The class of that value.
    #[tactic(auto, using(crate::proofs::SymbolSearch::primary_found, crate::proofs::SymbolSearch::primary_missing, crate::proofs::SymbolSearch::primary_is_within))]
    fn class(&self, value: u32) -> Option<ClassView<'a>>
        ensures { result ≡ find (declares (λ class. true) (λ class. class.value) value) self.now.classes.records }
    {
        match self.classes.by_value(value) {
            Some(i) => Some(self.classes.view(i)),
            None => None,
        }
    }

    // The permission of that value of a class: its own, or its common's.
    #[tactic(auto, using(crate::proofs::SymbolSearch::own_permission, crate::proofs::SymbolSearch::other_permission))]
    fn permission(&self, class: &ClassView<'a>, value: u32) -> Option<PermissionView<'a>>
        ensures { result ≡ of_value value (permissions_of self.now class.now.value) }
    {
        match class.permissions().of_value(value) {
            Some(permission) => Some(permission),
            None => inherited_from(&self.commons, class.common()).of_value(value),
        }
    }

    /// The name of the permission of that value of the class of a value, which is its own or its common's. `None` exactly
    /// where there is none. It tells one permission; a listing of all goes through the class's own ones and its common's.
    pub fn perm_name(&self, class: u32, value: u32) -> Option<&'a [u8]>
        ensures { option_map (λ name. name.now) result ≡ permission_name_in self.now class value }
    {
        let Some(class) = self.class(class) else {
            return None;
        };
        match self.permission(&class, value) {
            Some(permission) => Some(permission.name()),
            None => None,
        }
    }

    // The permission of that name of a class: its own, or its common's.
    #[tactic(auto, using(crate::proofs::SymbolSearch::own_named, crate::proofs::SymbolSearch::other_named))]
    fn permission_named(&self, class: &ClassView<'a>, name: &[u8]) -> Option<PermissionView<'a>>
        ensures { result ≡ of_name name.now (permissions_of self.now class.now.value) }
    {
        match class.permissions().of_name(name) {
            Some(permission) => Some(permission),
            None => inherited_from(&self.commons, class.common()).of_name(name),
        }
    }

    /// The value of the permission of that name of the class of a value, which is its own or its common's. `None` exactly
    /// where there is none. Takes no memory.
    pub fn perm_value(&self, class: u32, name: &[u8]) -> Option<u32>
        ensures { result ≡ permission_value_in self.now class name.now }
    {
        let Some(class) = self.class(class) else {
            return None;
        };
        match self.permission_named(&class, name) {
            Some(permission) => Some(permission.value()),
            None => None,
        }
    }

    /// The bits of the permissions of the class of that value, with those of its common: bit v - 1 stands for the
    /// permission value v. It is 0 where no class has the value. It tells which bits of an access vector stand for a permission.
    #[tactic(auto, using(crate::proofs::SymbolSearch::masks_together))]
    pub fn perms_of(&self, class: u32) -> u32
        ensures { result ≡ permission_mask_in self.now class }
    {
        match self.class(class) {
            Some(class) => {
                let own = class.permissions().mask();
                inherited_from(&self.commons, class.common()).fold(
                    own,
                    |mask, permission| mask | permission.bit(),
                )
            }
            None => 0,
        }
    }
}

impl<'a> Names for Symbols<'a> {
    ghost named = { name_in };

    fn name(&self, table: TableKind, value: u32) -> Option<&[u8]> {
        self.name_of(table, value)
    }

    fn declares(&self, table: TableKind, value: u32) -> bool {
        self.declares(table, value)
    }
}

/// The tables that rules name things by.
#[derive(Drop)]
pub struct RuleTables<'a> {
    pub commons: CommonList<'a>,
    pub classes: ClassTable<'a>,
    pub roles: SymbolTable<'a, Role>,
    pub types: SymbolTable<'a, Type>,
}

/// The tables behind those.
#[derive(Drop)]
pub struct OtherTables<'a> {
    pub users: SymbolTable<'a, User>,
    pub booleans: SymbolTable<'a, Boolean>,
    pub levels: SymbolTable<'a, Sensitivity>,
    pub categories: SymbolTable<'a, Category>,
}

/// Reads the eight symbol tables of a policy of that version. Nothing is reserved by a number of records that the policy
/// claims.
#[tactic(auto, unfolding(crate::specs::PolicySymbols::symbols_at))]
pub fn read_symbols<'a>(
    alloc: Global,
    c: &mut Cursor<'a>,
    version: u32,
) -> Result<Symbols<'a>, ReadError>
    ensures { Yields (λ symbols. symbols) result (symbols_at version) c.old c.new }
{
    let first = read_rule_tables(alloc, c, version)?;
    let others = read_other_tables(alloc, c)?;
    Ok(Symbols {
        commons: first.commons,
        classes: first.classes,
        roles: first.roles,
        types: first.types,
        users: others.users,
        booleans: others.booleans,
        levels: others.levels,
        categories: others.categories,
    })
}

// Reads the tables that rules name things by.
#[tactic(auto, unfolding(crate::specs::PolicySymbols::rule_tables_at))]
fn read_rule_tables<'a>(
    alloc: Global,
    c: &mut Cursor<'a>,
    version: u32,
) -> Result<RuleTables<'a>, ReadError>
    ensures { Yields (λ tables. tables) result (rule_tables_at version) c.old c.new }
{
    let commons = read_commons(alloc, c)?;
    let (classes, commons) = read_class_table(alloc, c, version, commons)?;
    let roles = read_roles(alloc, c)?;
    let types = read_types(alloc, c)?;
    Ok(RuleTables {
        commons,
        classes,
        roles,
        types,
    })
}

// Reads the tables behind those.
#[tactic(auto, unfolding(crate::specs::PolicySymbols::other_tables_at))]
fn read_other_tables<'a>(alloc: Global, c: &mut Cursor<'a>) -> Result<OtherTables<'a>, ReadError>
    ensures { Yields (λ tables. tables) result other_tables_at c.old c.new }
{
    let users = read_users(alloc, c)?;
    let booleans = read_booleans(alloc, c)?;
    let levels = read_levels(alloc, c)?;
    let categories = read_categories(alloc, c)?;
    Ok(OtherTables {
        users,
        booleans,
        levels,
        categories,
    })
}

// Reads the table of roles.
#[tactic(auto, unfolding(crate::specs::PolicySymbols::roles_at))]
fn read_roles<'a>(alloc: Global, c: &mut Cursor<'a>) -> Result<SymbolTable<'a, Role>, ReadError>
    ensures { Yields (λ table. table) result roles_at c.old c.new }
{
    read_whole_table(alloc, c)
}

// Reads the table of types.
#[tactic(auto, unfolding(crate::specs::PolicySymbols::types_at))]
fn read_types<'a>(alloc: Global, c: &mut Cursor<'a>) -> Result<SymbolTable<'a, Type>, ReadError>
    ensures { Yields (λ table. table) result types_at c.old c.new }
{
    read_whole_table(alloc, c)
}

// Reads the table of users.
#[tactic(auto, unfolding(crate::specs::PolicySymbols::users_at))]
fn read_users<'a>(alloc: Global, c: &mut Cursor<'a>) -> Result<SymbolTable<'a, User>, ReadError>
    ensures { Yields (λ table. table) result users_at c.old c.new }
{
    read_whole_table(alloc, c)
}

// Reads the table of booleans.
#[tactic(auto, unfolding(crate::specs::PolicySymbols::booleans_at))]
fn read_booleans<'a>(
    alloc: Global,
    c: &mut Cursor<'a>,
) -> Result<SymbolTable<'a, Boolean>, ReadError>
    ensures { Yields (λ table. table) result booleans_at c.old c.new }
{
    read_whole_table(alloc, c)
}

// Reads the table of levels.
#[tactic(auto, unfolding(crate::specs::PolicySymbols::levels_at))]
fn read_levels<'a>(
    alloc: Global,
    c: &mut Cursor<'a>,
) -> Result<SymbolTable<'a, Sensitivity>, ReadError>
    ensures { Yields (λ table. table) result levels_at c.old c.new }
{
    read_whole_table(alloc, c)
}

// Reads the table of categories.
#[tactic(auto, unfolding(crate::specs::PolicySymbols::categories_at))]
fn read_categories<'a>(
    alloc: Global,
    c: &mut Cursor<'a>,
) -> Result<SymbolTable<'a, Category>, ReadError>
    ensures { Yields (λ table. table) result categories_at c.old c.new }
{
    read_whole_table(alloc, c)
}
