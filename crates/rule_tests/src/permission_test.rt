// What a criterion asks of the permissions of rules.
ghost use Rattle.std.specs.Prelude.{◌≡◌, ◌∷◌, [], IfOk, codes, map};
ghost use Rattle.std.specs.List.{list_all, list_any};
ghost use Rattle.rule_tests.specs.AskedPermissions.{compare_names, is_one_of};
ghost use Rattle.rule_tests.specs.PartTests.{meets_mask, permissions_test, IsPermissionTest, AreClassBits};

use crate::class_bits::{ClassBits, is_one_of};
use crate::text_elements::elements;
use pol_fields::TableKind;
use pol_read::RulePart;
use pol_symbols::Symbols;
use rule_criteria::{Criterion, Mode};
use std::alloc::{AllocError, Global};

/// How masks compare with the names that are asked, class by class in file order, and whether the one permission of extended rules does.
#[derive(Drop)]
pub struct PermissionTest {
    mode: Mode,
    ioctl: bool,
    classes: Vec<ClassBits>,
}

impl PermissionTest {
    /// The test of a criterion of permissions.
    pub fn of(
        alloc: Global,
        symbols: &Symbols<'_>,
        criterion: &Criterion,
    ) -> Result<PermissionTest, AllocError>
        ensures { IfOk result (IsPermissionTest symbols.now criterion.now) }
    {
        let names = elements(alloc, criterion.text.as_str().as_bytes())?;
        Ok(PermissionTest {
            mode: criterion.mode,
            ioctl: has_ioctl(criterion.mode, &names),
            classes: all_classes(alloc, symbols, &names)?,
        })
    }

    /// Whether a part of a rule of a class meets it.
    pub fn meets(&self, symbols: &Symbols<'_>, class: u32, part: &RulePart<'_>) -> bool
        ensures { result ≡ permissions_test symbols.now self.now class part.now }
    {
        match part {
            RulePart::Perms(mask) => self.meets_mask(symbols, class, *mask),
            RulePart::Numbers(_) => self.ioctl,
            _ => false,
        }
    }

    // Whether a mask of a class does.
    fn meets_mask(&self, symbols: &Symbols<'_>, class: u32, mask: u32) -> bool
        ensures { result ≡ meets_mask symbols.now self.now class mask }
    {
        let Some(number) = symbols.by_value(TableKind::Classes, class) else {
            return false;
        };
        match self.classes.get(number as usize) {
            Some(bits) => bits.meets(self.mode, mask),
            None => false,
        }
    }
}

// How the names compare with the one permission of extended rules.
fn has_ioctl(mode: Mode, names: &[&[u8]]) -> bool
    ensures { result ≡ compare_names mode (map (λ name. name.now) names.now) (codes "ioctl" ∷ []) }
{
    match mode {
        Mode::Equal => is_one_of(names, b"ioctl") && all_ioctl(names),
        Mode::Subset => all_ioctl(names),
        _ => any_ioctl(names),
    }
}

// Whether each name is that of this permission.
fn all_ioctl(names: &[&[u8]]) -> bool
    ensures { result ≡ list_all (λ name. is_one_of (codes "ioctl" ∷ []) name.now) names.now }
{
    names.iter().all(|name| is_ioctl(name))
}

// Whether one of them is.
fn any_ioctl(names: &[&[u8]]) -> bool
    ensures { result ≡ list_any (λ name. is_one_of (codes "ioctl" ∷ []) name.now) names.now }
{
    names.iter().any(|name| is_ioctl(name))
}

// Whether a name is that of this permission.
fn is_ioctl(name: &[u8]) -> bool
    ensures { result ≡ is_one_of (codes "ioctl" ∷ []) name.now }
{
    name == b"ioctl".as_slice()
}

// The bits of all classes, in file order.
#[tactic(auto, using(crate::proofs::ClassesMade::none_made, crate::proofs::ClassesMade::made_more, crate::proofs::ClassesMade::all_made))]
fn all_classes(
    alloc: Global,
    symbols: &Symbols<'_>,
    names: &[&[u8]],
) -> Result<Vec<ClassBits>, AllocError>
    ensures { IfOk result (λ classes. AreClassBits symbols.now (map (λ name. name.now) names.now) classes.items) }
{
    let mut classes = Vec::new(alloc);
    for number in 0..symbols.classes.len() {
        let class = symbols.classes.view(number);
        let bits = ClassBits::of(alloc, symbols, &class, names)?;
        classes.push(bits)?;
    }
    Ok(classes)
}
