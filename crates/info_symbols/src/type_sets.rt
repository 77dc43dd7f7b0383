//! The listings of types, attributes and permissive types.

ghost use Rattle.std.specs.Prelude.{◌≡◌, ◌<◌, ◌++◌, IfOk, IfSome, OnOk, length, option_map};
ghost use Rattle.std.specs.List.{All, filter};
ghost use Rattle.info_lines.specs.Inner.Listings.{HasLine, line_of};
ghost use Rattle.info_lines.specs.NameOrder.{number_named};
ghost use Rattle.pol_fields.specs.declared.TableKind.TheVariants.{Types};
ghost use Rattle.pol_expand.specs.Flavours.{is_flavour};
ghost use Rattle.info_symbols.specs.Inner.AliasLists.{AreAliases};
ghost use Rattle.info_symbols.specs.TypeListings.{is_permissive, is_in, number_in, number_if_in, permissive_line, searched_set, set_listing, set_numbers, set_numbers_listed, shows_types, type_line, type_lines};

use crate::aliases::Aliases;
use crate::type_texts::push_type_statement;
use info_lines::{LineText, NumberedLines, number_named, primary_order};
use pol_datums::{Flavour, TypeView};
use pol_expand::is_flavour;
use pol_fields::TableKind;
use pol_read::Policy;
use std::alloc::{AllocError, Global};
use std::marker::Model;

/// What a listing of the table of types is of.
#[derive(Clone, Copy, Debug, PartialEq, Eq)]
pub enum TypeSet {
    /// Types that are no attributes.
    PlainTypes,
    Attributes,
    /// Types whose domains are permissive.
    PermissiveTypes,
}

/// The lines of the records of the table of types, by their numbers. Contracts see those of all records, in the order of the
/// table's list.
#[derive(Drop)]
pub struct TypeLines<'p, 'a> {
    policy: &'p Policy<'a>,
    set: TypeSet,
    expand: bool,
    // The aliases of types, where types are expanded.
    aliases: Aliases<'a>,
}

impl<'p, 'a> Model for TypeLines<'p, 'a> {
    ghost use Rattle.std.specs.Prelude.{ℕ, List};
    ghost use Rattle.pol_fields.specs.declared.TableKind.TheVariants.{Types};
    ghost use Rattle.info_symbols.specs.Inner.AliasLists.{AreAliases};
    ghost use Rattle.info_symbols.specs.TypeListings.{shows_types, type_lines};

    ghost Value = { List (List ℕ) };

    ghost view = { λ lines. type_lines lines.policy.now lines.set lines.expand };

    ghost invariant = { λ lines. AreAliases (shows_types lines.set lines.expand) lines.policy.now.symbols Types lines.aliases };
}

impl<'p, 'a> TypeLines<'p, 'a> {
    /// The lines of these types, plain or expanded, as those of the set.
    pub fn new(
        alloc: Global,
        policy: &'p Policy<'a>,
        set: TypeSet,
        expand: bool,
    ) -> Result<TypeLines<'p, 'a>, AllocError>
        ensures { IfOk result (λ lines. lines ≡ type_lines policy.now set expand) }
    {
        let wanted = shows_types(set, expand);
        let aliases = Aliases::new(alloc, policy.symbols(), TableKind::Types, wanted)?;
        Ok(TypeLines {
            policy,
            set,
            expand,
            aliases,
        })
    }
}

// Whether the lines are statements that declare types.
fn shows_types(set: TypeSet, expand: bool) -> bool
    ensures { result ≡ shows_types set expand }
{
    match (set, expand) {
        (TypeSet::PlainTypes, true) => true,
        _ => false,
    }
}

impl<'p, 'a> LineText for TypeLines<'p, 'a> {
    ghost has = { HasLine };

    ghost text = { line_of };

    #[tactic(auto, using(info_lines::proofs::ListingLines::line_at))]
    fn push_text(&self, number: u32, buffer: &mut Vec<u8>) -> Result<(), AllocError> {
        push_type(
            buffer,
            self.policy,
            &self.aliases,
            &self.policy.symbols().types.view(number),
            self.set,
            self.expand,
        )
    }
}

// Adds the line of a type.
#[tactic(auto, unfolding(crate::specs::TypeListings::type_line))]
fn push_type(
    buffer: &mut Vec<u8>,
    policy: &Policy<'_>,
    aliases: &Aliases<'_>,
    t: &TypeView<'_>,
    set: TypeSet,
    expand: bool,
) -> Result<(), AllocError>
    requires { AreAliases (shows_types set expand) policy.now.symbols Types aliases.now }
    ensures { OnOk result (buffer.new.items ≡ buffer.old.items ++ type_line policy.now set expand t.now.value) }
{
    match (set, expand) {
        (TypeSet::PlainTypes, true) => push_type_statement(buffer, policy, aliases, t),
        (TypeSet::PermissiveTypes, true) => push_permissive(buffer, t.name()),
        _ => buffer.extend_from_slice(t.name()),
    }
}

// Adds the statement that makes a type permissive.
fn push_permissive(buffer: &mut Vec<u8>, name: &[u8]) -> Result<(), AllocError>
    ensures { OnOk result (buffer.new.items ≡ buffer.old.items ++ permissive_line name.now) }
{
    buffer.extend_from_slice(b"permissive ")?;
    buffer.extend_from_slice(name)?;
    buffer.extend_from_slice(b";")
}

// Whether a record of the table of types is in the set.
fn is_in(policy: &Policy<'_>, set: TypeSet, t: &TypeView<'_>) -> bool
    ensures { result ≡ is_in policy.now set t.now.value }
{
    match set {
        TypeSet::PlainTypes => is_flavour(Flavour::Plain, t.flavour()),
        TypeSet::Attributes => is_flavour(Flavour::Attribute, t.flavour()),
        TypeSet::PermissiveTypes => {
            is_flavour(Flavour::Plain, t.flavour()) && is_permissive(policy, t.value())
        }
    }
}

// Whether the domain of the type of a value is permissive.
fn is_permissive(policy: &Policy<'_>, value: u32) -> bool
    ensures { result ≡ is_permissive policy.now value }
{
    policy.permissive().has(value)
}

// The numbers of the records that are in the set.
#[tactic(auto, using(crate::proofs::Listed::kept_within))]
fn numbers_in(
    alloc: Global,
    policy: &Policy<'_>,
    set: TypeSet,
    numbers: &[u32],
) -> Result<Vec<u32>, AllocError>
    requires { All (λ n. n < length policy.now.symbols.types.records) numbers.now }
    ensures kept { IfOk result (λ kept. kept.items ≡ filter (number_in policy.now set) numbers.now) }
    ensures within { IfOk result (λ kept. All (λ n. n < length policy.now.symbols.types.records) kept.items) }
{
    let mut kept = Vec::new(alloc);
    for number in numbers {
        if is_in(policy, set, &policy.symbols().types.view(*number)) {
            kept.push(*number)?;
        }
    }
    Ok(kept)
}

/// The numbers of the primary records of a set, in the order of their names.
pub fn set_numbers(alloc: Global, policy: &Policy<'_>, set: TypeSet) -> Result<Vec<u32>, AllocError>
    ensures numbers { IfOk result (λ numbers. numbers.items ≡ set_numbers policy.now set) }
    ensures within { IfOk result (λ numbers. All (λ n. n < length policy.now.symbols.types.records) numbers.items) }
{
    let all = primary_order(alloc, policy.symbols(), TableKind::Types)?;
    numbers_in(alloc, policy, set, &all)
}

/// The number of the record that a name finds, where it is in the set.
pub fn set_number_named(policy: &Policy<'_>, set: TypeSet, name: &[u8]) -> Option<u32>
    ensures found { result ≡ number_if_in policy.now set (number_named policy.now.symbols Types name.now) }
    ensures within { IfSome result (λ number. number < length policy.now.symbols.types.records) }
{
    let symbols = policy.symbols();
    match number_named(symbols, TableKind::Types, name) {
        Some(number) => {
            if is_in(policy, set, &symbols.types.view(number)) {
                Some(number)
            } else {
                None
            }
        }
        None => None,
    }
}

// The set in which a name is looked up.
fn searched_set(set: TypeSet) -> TypeSet
    ensures { result ≡ searched_set set }
{
    match set {
        TypeSet::PlainTypes | TypeSet::PermissiveTypes => TypeSet::PlainTypes,
        TypeSet::Attributes => TypeSet::Attributes,
    }
}

// The numbers of the records of a set that are listed, or `None` where no name is known.
#[tactic(auto, unfolding(crate::specs::TypeListings::set_numbers_listed))]
fn set_numbers_listed(
    alloc: Global,
    policy: &Policy<'_>,
    set: TypeSet,
    name: Option<&[u8]>,
) -> Result<Option<Vec<u32>>, AllocError>
    ensures numbers { IfOk result (λ numbers. option_map (λ numbers. numbers.items) numbers ≡ set_numbers_listed policy.now set (option_map (λ name. name.now) name.entry)) }
    ensures within { IfOk result (λ numbers. IfSome numbers (λ numbers. All (λ n. n < length policy.now.symbols.types.records) numbers.items)) }
{
    let Some(name) = name else {
        return Ok(Some(set_numbers(alloc, policy, set)?));
    };
    match set_number_named(policy, searched_set(set), name) {
        Some(number) => Ok(Some(numbers_in(alloc, policy, set, &[number])?)),
        None => Ok(None),
    }
}

/// The lines of a set in the order of the names, plain or expanded (attributes are expanded elsewhere), or where a name is given,
/// the lines of the record that it finds. `None` exactly where it finds none. A type that is not permissive is found among the
/// permissive types, and has no line there.
#[tactic(auto, using(crate::proofs::Listed::set_listed, crate::proofs::Listed::none_of_set, crate::proofs::Listed::have_type_lines))]
pub fn set_lines<'p, 'a>(
    alloc: Global,
    policy: &'p Policy<'a>,
    set: TypeSet,
    expand: bool,
    name: Option<&[u8]>,
) -> Result<Option<NumberedLines<TypeLines<'p, 'a>>>, AllocError>
    ensures { IfOk result (λ lines. lines ≡ set_listing policy.now set expand (option_map (λ name. name.now) name.entry)) }
{
    let Some(numbers) = set_numbers_listed(alloc, policy, set, name)? else {
        return Ok(None);
    };
    let lines = TypeLines::new(alloc, policy, set, expand)?;
    Ok(Some(NumberedLines::new(lines, numbers)))
}
