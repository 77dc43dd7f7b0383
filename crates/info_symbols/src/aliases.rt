//! The aliases of a table: further names of its values.

ghost use Rattle.std.specs.Prelude.{◌≡◌, ◌<◌, ◌++◌, ◌∷◌, [], IfOk, OnOk, length, map, slice_index_or};
ghost use Rattle.pol_texts.specs.NameLists.{in_order};
ghost use Rattle.info_symbols.specs.Inner.AliasLists.{AreAliases, AreListed, Gains, GainsRecord, SameLists};
ghost use Rattle.info_symbols.specs.Aliases.{alias_text};

use info_lines::push_set;
use pol_fields::TableKind;
use pol_symbols::Symbols;
use pol_symtab::{Symbol, SymbolTable};
use std::alloc::{AllocError, Global};
use std::marker::Model;

/// Names, one after the other. Contracts see the list of them.
#[derive(Drop)]
pub(crate) struct NameList<'a> {
    names: Vec<&'a [u8]>,
}

impl<'a> Model for NameList<'a> {
    ghost use Rattle.std.specs.Prelude.{ℕ, List, map};

    ghost Value = { List (List ℕ) };

    ghost view = { λ list. map (λ name. name.now) list.names.items };
}

impl<'a> NameList<'a> {
    // No name.
    fn new(alloc: Global) -> NameList<'a>
        ensures { result ≡ [] }
    {
        NameList {
            names: Vec::new(alloc),
        }
    }

    // Appends a name.
    fn push(&mut self, name: &'a [u8]) -> Result<(), AllocError>
        ensures { OnOk result (self.new ≡ self.old ++ name.now ∷ []) }
    {
        self.names.push(name)?;
        Ok(())
    }

    // The names.
    fn as_slice(&self) -> &[&'a [u8]]
        ensures { map (λ name. name.now) result.now ≡ self.now }
    {
        self.names.as_slice()
    }
}

/// The names of the aliases of a table, by the values that they stand for. Contracts see a list for each value from 0 on, up to
/// the greatest that has an alias, each in the order of the table's list.
#[derive(Drop)]
pub struct Aliases<'a> {
    lists: Vec<NameList<'a>>,
}

impl<'a> Model for Aliases<'a> {
    ghost use Rattle.std.specs.Prelude.{ℕ, List};

    ghost Value = { List (List (List ℕ)) };

    ghost view = { λ aliases. aliases.lists.items };
}

impl<'a> Aliases<'a> {
    /// The aliases of a table, where they are wanted, in one pass over its records.
    pub fn new(
        alloc: Global,
        symbols: &Symbols<'a>,
        table: TableKind,
        wanted: bool,
    ) -> Result<Aliases<'a>, AllocError>
        ensures { IfOk result (λ aliases. AreAliases wanted symbols.now table aliases) }
    {
        if !wanted {
            return Ok(Aliases::none(alloc));
        }
        match table {
            TableKind::Types => aliases_among(alloc, &symbols.types),
            TableKind::Levels => aliases_among(alloc, &symbols.levels),
            TableKind::Categories => aliases_among(alloc, &symbols.categories),
            _ => Ok(Aliases::none(alloc)),
        }
    }

    // No alias.
    fn none(alloc: Global) -> Aliases<'a>
        ensures { result ≡ [] }
    {
        Aliases {
            lists: Vec::new(alloc),
        }
    }

    // Adds an alias of a value.
    #[tactic(auto, using(crate::proofs::AliasLists::gains_put))]
    fn add(&mut self, value: u32, name: &'a [u8]) -> Result<(), AllocError>
        ensures { OnOk result (Gains value name.now self.old self.new) }
    {
        self.reach(value)?;
        self.lists[value as usize].push(name)
    }

    // Adds lists of no name, so that a value has one.
    #[tactic(auto, using(crate::proofs::AliasLists::same_more))]
    fn reach(&mut self, value: u32) -> Result<(), AllocError>
        ensures reached { OnOk result (value < length self.new) }
        ensures same { OnOk result (SameLists self.old self.new) }
    {
        let alloc = *self.lists.allocator();
        'lists: while self.lists.len() <= value as usize {
            self.lists.push(NameList::new(alloc))?;
        }
        Ok(())
    }

    // The names of the aliases of a value, in the order of the table's list.
    fn of(&self, value: u32) -> &[&'a [u8]]
        ensures { map (λ name. name.now) result.now ≡ slice_index_or self.now value [] }
    {
        let place = value as usize;
        if place >= self.lists.len() {
            return &[];
        }
        self.lists[place].as_slice()
    }

    /// The names of the aliases of a value, in the order of their bytes.
    pub fn names(&self, alloc: Global, value: u32) -> Result<Vec<&'a [u8]>, AllocError>
        ensures { IfOk result (λ names. map (λ name. name.now) names.items ≡ in_order (slice_index_or self.now value [])) }
    {
        sorted_names(alloc, self.of(value))
    }
}

// The aliases among the records of a table.
#[tactic(auto, using(crate::proofs::AliasLists::none_listed, crate::proofs::AliasLists::next_listed))]
fn aliases_among<'a, K: Symbol<'a> + Drop>(
    alloc: Global,
    table: &SymbolTable<'a, K>,
) -> Result<Aliases<'a>, AllocError>
where
    K::View: Drop,
    ensures { IfOk result (λ aliases. AreListed K.name_of K.is_primary K.value_of table.now.records aliases) }
{
    let mut aliases = Aliases::none(alloc);
    for number in 0..table.len() {
        add_record::<K>(&mut aliases, &table.view(number))?;
    }
    Ok(aliases)
}

// Adds a record, if it is an alias.
#[tactic(auto, using(crate::proofs::AliasLists::no_gain, crate::proofs::AliasLists::alias_gained))]
fn add_record<'a, K: Symbol<'a> + Drop>(
    aliases: &mut Aliases<'a>,
    symbol: &K::View,
) -> Result<(), AllocError>
    ensures { OnOk result (GainsRecord K.name_of K.is_primary K.value_of (K.shown symbol.now) aliases.old aliases.new) }
{
    if K::is_primary(symbol) {
        Ok(())
    } else {
        aliases.add(K::value(symbol), K::name(symbol))
    }
}

/// Adds what a statement says of the aliases of a value.
pub fn push_aliases(
    buffer: &mut Vec<u8>,
    aliases: &Aliases<'_>,
    value: u32,
) -> Result<(), AllocError>
    ensures { OnOk result (buffer.new.items ≡ buffer.old.items ++ alias_text (in_order (slice_index_or aliases.now value []))) }
{
    let names = aliases.names(*buffer.allocator(), value)?;
    push_alias_set(buffer, &names)
}

// Adds a set of aliases, where there are some.
fn push_alias_set(buffer: &mut Vec<u8>, names: &[&[u8]]) -> Result<(), AllocError>
    ensures { OnOk result (buffer.new.items ≡ buffer.old.items ++ alias_text (map (λ name. name.now) names.now)) }
{
    if names.len() == 0 {
        return Ok(());
    }
    buffer.extend_from_slice(b" alias ")?;
    push_set(buffer, names)
}

// Names in the order of their bytes.
fn sorted_names<'a>(alloc: Global, names: &[&'a [u8]]) -> Result<Vec<&'a [u8]>, AllocError>
    ensures { IfOk result (λ sorted. map (λ name. name.now) sorted.items ≡ in_order (map (λ name. name.now) names.now)) }
{
    let mut sorted = Vec::from_slice(alloc, names)?;
    sorted.sort()?;
    Ok(sorted)
}
