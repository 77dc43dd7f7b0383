// The bits of the permissions of a class, by their names.
ghost use Rattle.std.specs.Prelude.{◌≡◌, IfOk, map, not};
ghost use Rattle.std.specs.Str.{bytes_eq};
ghost use Rattle.std.specs.List.{filter, list_all, list_any};
ghost use Rattle.pol_symbols.specs.PolicySymbols.{permissions_of};
ghost use Rattle.rule_tests.specs.PartTests.{IsClassBits, bits_named, bits_behind, shares_bit, meets_bits};

use pol_classes::ClassView;
use pol_commons::{PermissionList, inherited_from};
use pol_symbols::Symbols;
use rule_criteria::Mode;
use std::alloc::{AllocError, Global};

/// For each name that is asked the bits of the class's permissions of that name, and the bits of all its other permissions.
#[derive(Drop)]
pub struct ClassBits {
    pub named: Vec<u32>,
    pub others: u32,
}

impl ClassBits {
    /// The bits of a class, with the permissions of its common.
    pub fn of(
        alloc: Global,
        symbols: &Symbols<'_>,
        class: &ClassView<'_>,
        names: &[&[u8]],
    ) -> Result<ClassBits, AllocError>
        ensures { IfOk result (IsClassBits (map (λ name. name.now) names.now) (permissions_of symbols.now class.now.value)) }
    {
        let named = all_named(alloc, symbols, class, names)?;
        let own = bits_of_others(0, class.permissions(), names);
        let others = bits_of_others(own, inherited_from(&symbols.commons, class.common()), names);
        Ok(ClassBits { named, others })
    }

    /// Whether the permissions of a mask compare with the names as a mode says.
    pub fn meets(&self, mode: Mode, mask: u32) -> bool
        ensures { result ≡ meets_bits mode self.now mask }
    {
        match mode {
            Mode::Equal => all_there(&self.named, mask) && !shares_bit(mask, self.others),
            Mode::Subset => all_there(&self.named, mask),
            _ => any_there(&self.named, mask),
        }
    }
}

// Name by name the bits of the permissions of that name.
fn all_named(
    alloc: Global,
    symbols: &Symbols<'_>,
    class: &ClassView<'_>,
    names: &[&[u8]],
) -> Result<Vec<u32>, AllocError>
    ensures { IfOk result (λ named. named.items ≡ map (λ name. bits_named name.now (permissions_of symbols.now class.now.value)) names.now) }
{
    let mut named = Vec::with_capacity(alloc, names.len())?;
    for name in names {
        named.push(bits_in_class(symbols, class, name))?;
    }
    Ok(named)
}

// The bits of the permissions of a class, or of its common, that have a name.
#[tactic(auto, using(crate::proofs::ClassPermissions::together))]
fn bits_in_class(symbols: &Symbols<'_>, class: &ClassView<'_>, name: &[u8]) -> u32
    ensures { result ≡ bits_named name.now (permissions_of symbols.now class.now.value) }
{
    let own = bits_of_name(0, class.permissions(), name);
    bits_of_name(own, inherited_from(&symbols.commons, class.common()), name)
}

// Some bits, and those of the permissions of a name.
fn bits_of_name(bits: u32, permissions: PermissionList<'_>, name: &[u8]) -> u32
    ensures { result ≡ bits_behind bits (filter (λ permission. bytes_eq name.now permission.name) permissions.entry) }
{
    permissions
        .filter(|permission| name == permission.name())
        .fold(bits, |mask, permission| mask | permission.bit())
}

// Some bits, and those of the permissions of no such name.
fn bits_of_others(bits: u32, permissions: PermissionList<'_>, names: &[&[u8]]) -> u32
    ensures { result ≡ bits_behind bits (filter (λ permission. not (list_any (λ other. bytes_eq permission.name other.now) names.now)) permissions.entry) }
{
    permissions
        .filter(|permission| !is_one_of(names, permission.name()))
        .fold(bits, |mask, permission| mask | permission.bit())
}

/// Whether a name is one of some.
pub fn is_one_of(names: &[&[u8]], name: &[u8]) -> bool
    ensures { result ≡ list_any (λ other. bytes_eq name.now other.now) names.now }
{
    names.iter().any(|other| name == *other)
}

// Whether a mask has one of some bits.
fn shares_bit(mask: u32, bits: u32) -> bool
    ensures { result ≡ shares_bit mask bits }
{
    bits & mask != 0
}

// Whether a mask has a bit of each.
fn all_there(named: &[u32], mask: u32) -> bool
    ensures { result ≡ list_all (shares_bit mask) named.now }
{
    named.iter().all(|bits| shares_bit(mask, *bits))
}

// Whether a mask has a bit of one of them.
fn any_there(named: &[u32], mask: u32) -> bool
    ensures { result ≡ list_any (shares_bit mask) named.now }
{
    named.iter().any(|bits| shares_bit(mask, *bits))
}
