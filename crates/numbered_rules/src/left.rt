//! The forms that one of two lists alone has.
ghost use Rattle.std.specs.Prelude.{◌≡◌, ◌⊎◌, ℕ, Bool, List, true, IfOk, OnOk, IsTrue, Contains, map};
ghost use Rattle.std.specs.List.{filter, list_any};
ghost use Rattle.pol_bitmap.specs.Nodes.{bits_of};
ghost use Rattle.numbered_rules.specs.NumberedRules.{has};
ghost use Rattle.pol_bitmap.specs.declared.node.Node.{Node};
ghost use Rattle.numbered_rules.specs.declared.form.RuleForm.{RuleForm};
ghost use Rattle.numbered_rules.specs.Forms.{HasSets, HaveSets, rules_of};
ghost use Rattle.numbered_rules.specs.Inner.Cells.{AreOfClasses, HaveLeft};

use crate::form::RuleForm;
use crate::sets::set_has;
use pol_bitmap::Set;
use std::alloc::{AllocError, Global};

/// The forms that one of two lists alone has.
pub(crate) fn left_of(
    alloc: Global,
    first: &[RuleForm],
    second: &[RuleForm],
) -> Result<Vec<RuleForm>, AllocError>
    ensures sets { IfOk result (λ left. (sets : List (List Node)) → HaveSets sets first.now → HaveSets sets second.now → HaveSets sets left.items) }
    ensures left { IfOk result (λ left. (sets : List (List Node)) → HaveLeft (rules_of sets left.items) (rules_of sets first.now) (rules_of sets second.now)) }
{
    let mut left = Vec::new(alloc);
    let others = sorted(alloc, second)?;
    add_missing(&mut left, first, &others)?;
    let others = sorted(alloc, first)?;
    add_missing(&mut left, second, &others)?;
    Ok(left)
}

/// The forms of a list whose class is one of those of the forms that are left, in order.
pub(crate) fn of_classes(
    alloc: Global,
    left: &[RuleForm],
    forms: &[RuleForm],
) -> Result<Vec<RuleForm>, AllocError>
    ensures sets { IfOk result (λ kept. (sets : List (List Node)) → HaveSets sets forms.now → HaveSets sets kept.items) }
    ensures classes { IfOk result (λ kept. (sets : List (List Node)) → AreOfClasses (rules_of sets left.now) (rules_of sets forms.now) (rules_of sets kept.items)) }
{
    let classes = classes_of(alloc, left)?;
    let kept = with_classes(alloc, &classes, forms)?;
    Ok(sorted(alloc, &kept)?)
}

// The classes of forms.
fn classes_of(alloc: Global, forms: &[RuleForm]) -> Result<Set, AllocError>
    ensures { IfOk result (λ set. (class : ℕ) → has (bits_of set) class ≡ has (map (λ form. form.class) forms.now) class) }
{
    let classes = class_numbers(alloc, forms)?;
    Ok(Set::from_values(alloc, classes)?)
}

// The class of each form.
fn class_numbers(alloc: Global, forms: &[RuleForm]) -> Result<Vec<u32>, AllocError>
    ensures { IfOk result (λ classes. classes.items ≡ map (λ form. form.class) forms.now) }
{
    forms.iter().map(|form| form.class).collect(alloc)
}

// The forms of some classes.
fn with_classes(
    alloc: Global,
    classes: &Set,
    forms: &[RuleForm],
) -> Result<Vec<RuleForm>, AllocError>
    ensures { IfOk result (λ found. found.items ≡ filter (λ form. has (bits_of classes.now) form.class) forms.now) }
{
    let mut found = Vec::new(alloc);
    for form in forms {
        if set_has(classes, form.class) {
            found.push(*form)?;
        }
    }
    Ok(found)
}

// The forms in order.
fn sorted(alloc: Global, forms: &[RuleForm]) -> Result<Vec<RuleForm>, AllocError>
    ensures sets { IfOk result (λ all. (sets : List (List Node)) → HaveSets sets forms.now → HaveSets sets all.items) }
    ensures same { IfOk result (λ all. (test : RuleForm → Bool) → list_any test all.items ≡ list_any test forms.now) }
{
    let mut all = Vec::from_slice(alloc, forms)?;
    all.sort_unstable();
    Ok(all)
}

// Adds the forms of a list that others, which are in order, have not.
fn add_missing(
    left: &mut Vec<RuleForm>,
    forms: &[RuleForm],
    others: &[RuleForm],
) -> Result<(), AllocError>
    ensures sets { OnOk result ((sets : List (List Node)) → HaveSets sets left.old.items → HaveSets sets forms.now → HaveSets sets left.new.items) }
    ensures kept { OnOk result ((test : RuleForm → Bool) → list_any test left.old.items ≡ true → list_any test left.new.items ≡ true) }
    ensures all { OnOk result ((test : RuleForm → Bool) → list_any test forms.now ≡ true → (list_any test others.now ≡ true) ⊎ (list_any test left.new.items ≡ true)) }
{
    for form in forms {
        add_if_missing(left, *form, others)?;
    }
    Ok(())
}

// Adds a form, unless it is found among others.
#[tactic(auto, using(crate::proofs::LeftFacts::found_by, crate::proofs::LeftFacts::kept_by, crate::proofs::LeftFacts::added_by))]
fn add_if_missing(
    left: &mut Vec<RuleForm>,
    form: RuleForm,
    others: &[RuleForm],
) -> Result<(), AllocError>
    ensures sets { OnOk result ((sets : List (List Node)) → HaveSets sets left.old.items → HasSets sets form → HaveSets sets left.new.items) }
    ensures kept { OnOk result ((test : RuleForm → Bool) → list_any test left.old.items ≡ true → list_any test left.new.items ≡ true) }
    ensures all { OnOk result ((test : RuleForm → Bool) → test form ≡ true → (list_any test others.now ≡ true) ⊎ (list_any test left.new.items ≡ true)) }
{
    if !has_form(others, form) {
        left.push(form)?;
    }
    Ok(())
}

// Whether a form is found among others, which are in order. What is found is there.
fn has_form(others: &[RuleForm], form: RuleForm) -> bool
    ensures { IsTrue result → Contains others.now form }
{
    let mut low = 0;
    let mut high = others.len();
    'halves: while low < high {
        let middle = low + (high - low) / 2;
        if others[middle] < form {
            low = middle + 1;
        } else {
            high = middle;
        }
    }
    low < others.len() && others[low] == form
}
