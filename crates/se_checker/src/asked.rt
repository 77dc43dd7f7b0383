// What is asked of allow rules.
ghost use Rattle.std.specs.Prelude.{◌≡◌, ◌==◌, ℕ, Some, option_map};
ghost use Rattle.pol_commons.specs.Permissions.{of_name};
ghost use Rattle.pol_symbols.specs.PolicySymbols.{permissions_of};
ghost use Rattle.text_rows.specs.TextLines.{fields_in};
ghost use Rattle.se_checker.specs.Verdicts.{asked_by, asks_class, found_passes};
ghost use Rattle.se_checker.specs.Inner.AskedBits.{asks_in_class, bits_named, has_asked, with_found};

use check_list::{Check, CheckKey};
use pol_classes::ClassView;
use pol_commons::{PermissionView, inherited_from};
use pol_fields::TableKind;
use pol_symbols::Symbols;
use std::marker::Model;
use text_rows::first_field;

/// What is asked of an allow rule, by texts whose fields are names. Nothing is asked where a text is not there. Contracts see the names.
#[derive(Drop)]
pub struct Asked<'a> {
    pub source: Option<&'a [u8]>,
    pub exempt_source: &'a [u8],
    pub target: Option<&'a [u8]>,
    pub exempt_target: &'a [u8],
    pub class: Option<&'a [u8]>,
    pub perms: Option<&'a [u8]>,
}

impl<'a> Model for Asked<'a> {
    ghost use Rattle.std.specs.Prelude.{option_map};
    ghost use Rattle.text_rows.specs.TextLines.{fields_in};
    ghost use Rattle.se_checker.specs.Verdicts.{Asked};

    ghost Value = { Asked };

    ghost view = { λ a. record {
      source = option_map (λ names. fields_in names.now) a.source;
      exempt_source = fields_in a.exempt_source.now;
      target = option_map (λ names. fields_in names.now) a.target;
      exempt_target = fields_in a.exempt_target.now;
      class = option_map (λ names. fields_in names.now) a.class;
      perms = option_map (λ names. fields_in names.now) a.perms;
    } };
}

/// What an assertion asks.
pub fn asked_by<'a>(check: &Check<'a>) -> Asked<'a>
    ensures { result ≡ asked_by check.now }
{
    Asked {
        source: check.given(CheckKey::Source),
        exempt_source: check.listed(CheckKey::ExemptSource),
        target: check.given(CheckKey::Target),
        exempt_target: check.listed(CheckKey::ExemptTarget),
        class: check.given(CheckKey::Class),
        perms: check.given(CheckKey::Perms),
    }
}

/// What is asked of the masks of the allow rules of a class.
#[derive(Clone, Copy)]
pub enum AskedBits {
    /// The class is not asked for.
    Nothing,
    /// Any mask will do.
    Anything,
    /// One of these bits.
    Bits(u32),
}

impl AskedBits {
    /// Whether a mask has what is asked for.
    #[inline(always)]
    pub fn has(self, mask: u32) -> bool
        ensures { result ≡ has_asked self mask }
    {
        match self {
            AskedBits::Nothing => false,
            AskedBits::Anything => true,
            AskedBits::Bits(bits) => bits & mask != 0,
        }
    }
}

/// What is asked of the masks of the rules of a class. Its names are looked up here, and not rule by rule.
pub fn asked_bits<'a>(symbols: &Symbols<'a>, asked: &Asked<'_>, class: &ClassView<'a>) -> AskedBits
    ensures { (mask : ℕ) → has_asked result mask ≡ asks_in_class symbols.now asked.now class.now.value mask }
{
    if !asks_class(symbols, asked.class, class.value()) {
        return AskedBits::Nothing;
    }
    match asked.perms {
        Some(names) => AskedBits::Bits(bits_named(symbols, class, names)),
        None => AskedBits::Anything,
    }
}

// Whether a class is asked for.
fn asks_class(symbols: &Symbols<'_>, names: Option<&[u8]>, class: u32) -> bool
    ensures { result ≡ asks_class symbols.now (option_map (λ names. fields_in names.now) names.entry) class }
{
    match names {
        Some(names) => names_class(symbols, names, class),
        None => true,
    }
}

// Whether one of some names is that of a class.
fn names_class(symbols: &Symbols<'_>, names: &[u8], class: u32) -> bool
    ensures { result ≡ asks_class symbols.now (Some (fields_in names.now)) class }
{
    let mut rest = names;
    while let Some((name, after)) = first_field(rest) {
        if is_value(symbols.by_name(TableKind::Classes, name), class) {
            return true;
        }
        rest = after;
    }
    false
}

// Whether a look-up found that value.
fn is_value(found: Option<u32>, value: u32) -> bool
    ensures { result ≡ found_passes (λ other. other == value) found }
{
    match found {
        Some(other) => other == value,
        None => false,
    }
}

// The bits of the permissions of a class that have one of some names.
fn bits_named<'a>(symbols: &Symbols<'a>, class: &ClassView<'a>, names: &[u8]) -> u32
    ensures { result ≡ bits_named (permissions_of symbols.now class.now.value) 0 (fields_in names.now) }
{
    let mut bits = 0;
    let mut rest = names;
    while let Some((name, after)) = first_field(rest) {
        bits = with_found(bits, permission_named(symbols, class, name));
        rest = after;
    }
    bits
}

// Some bits, and that of a permission that was found.
fn with_found(bits: u32, found: Option<PermissionView<'_>>) -> u32
    ensures { result ≡ with_found bits found.entry }
{
    match found {
        Some(permission) => bits | permission.bit(),
        None => bits,
    }
}

// The permission of a name of a class: its own, or its common's.
#[tactic(auto, using(pol_symbols::proofs::SymbolSearch::own_named, pol_symbols::proofs::SymbolSearch::other_named))]
fn permission_named<'a>(
    symbols: &Symbols<'a>,
    class: &ClassView<'a>,
    name: &[u8],
) -> Option<PermissionView<'a>>
    ensures { result ≡ of_name name.now (permissions_of symbols.now class.now.value) }
{
    match class.permissions().of_name(name) {
        Some(permission) => Some(permission),
        None => inherited_from(&symbols.commons, class.common()).of_name(name),
    }
}
