//! What differs between a source and a target.
ghost use Rattle.std.specs.Prelude.{◌≡◌, ◌<◌, ◌++◌, IfOk, IfSome, OnOk, List, map, option_map, reverse, length};
ghost use Rattle.pol_bitmap.specs.declared.Node.{Node};
ghost use Rattle.numbered_rules.specs.declared.key.SingleKey.{SingleKey};
ghost use Rattle.std.specs.List.{All, filter};
ghost use Rattle.keyed_lists.specs.KeyOrder.{with_key};
ghost use Rattle.keyed_lists.specs.Differences.{is_difference};
ghost use Rattle.pol_bitmap.specs.Nodes.{bits_of};
ghost use Rattle.pol_bitmap.specs.Sets.{IsSet};
ghost use Rattle.numbered_rules.specs.Forms.{HaveSets, form_key, is_form_of, rules_of};
ghost use Rattle.numbered_rules.specs.NumberedRules.{counted, given_together, is_entry, is_labelled, key_cmp, same_given, unconditioned};
ghost use Rattle.numbered_rules.specs.Inner.Cells.{both_labelled, cell_differences, cell_keys, key_between, labelled_value, with_keys};

use crate::difference::SingleDifference;
use crate::form::RuleForm;
use crate::key::{Counting, SingleKey};
use crate::sets::union_of;
use pol_bitmap::{Pool, Set};
use std::alloc::{AllocError, Global};
use std::cmp::Ordering;

#[tactic(auto, using(crate::proofs::FormFacts::kept_more, crate::proofs::FormFacts::turned_back))]
/// The differences at a source and a target, of which all the forms speak, from the last to the first.
pub(crate) fn cell_differences(
    alloc: Global,
    pool: &Pool,
    counting: Counting,
    keys: &[SingleKey],
    first: &[RuleForm],
    second: &[RuleForm],
) -> Result<Vec<SingleDifference>, AllocError>
    requires first { HaveSets pool.now first.now }
    requires second { HaveSets pool.now second.now }
    ensures { IfOk result (λ differences. reverse differences.items ≡ filter (is_difference same_given) (map (both_labelled counting (rules_of pool.now first.now) (rules_of pool.now second.now)) keys.now)) }
{
    let mut differences = Vec::new(alloc);
    for key in keys {
        let difference = both_at(alloc, pool, counting, first, second, *key)?;
        if difference.differs() {
            differences.push(difference)?;
        }
    }
    differences.reverse();
    Ok(differences)
}

/// The keys of forms between a source and a target, in order.
pub(crate) fn cell_keys(
    alloc: Global,
    source: u32,
    target: u32,
    first: &[RuleForm],
    second: &[RuleForm],
) -> Result<Vec<SingleKey>, AllocError>
    ensures { IfOk result (λ keys. (sets : List (List Node)) → keys.items ≡ cell_keys source target (rules_of sets first.now ++ rules_of sets second.now)) }
{
    let mut keys = Vec::new(alloc);
    add_keys(&mut keys, source, target, second)?;
    add_keys(&mut keys, source, target, first)?;
    Ok(keys)
}

// Adds the keys of forms between a source and a target, from the last to the first.
fn add_keys(
    keys: &mut Vec<SingleKey>,
    source: u32,
    target: u32,
    forms: &[RuleForm],
) -> Result<(), AllocError>
    ensures { OnOk result (keys.new.items ≡ with_keys (map (form_key source target) forms.now) keys.old.items) }
{
    let mut left = forms.len();
    'forms: while left > 0 {
        left -= 1;
        let form = forms[left];
        let key = SingleKey {
            source,
            target,
            class: form.class,
            name: form.name,
            condition: form.condition,
        };
        add_key(keys, key)?;
    }
    Ok(())
}

// Adds a key at its place, unless it is there.
fn add_key(keys: &mut Vec<SingleKey>, key: SingleKey) -> Result<(), AllocError>
    ensures { OnOk result (keys.new.items ≡ with_key key_cmp key keys.old.items) }
{
    for place in 0..keys.len() {
        match key.compare(keys[place]) {
            Ordering::Less => {
                keys.insert(place, key)?;
                return Ok(());
            }
            Ordering::Equal => return Ok(()),
            Ordering::Greater => {}
        }
    }
    keys.push(key)?;
    Ok(())
}

// What both sides have of a key.
fn both_at(
    alloc: Global,
    pool: &Pool,
    counting: Counting,
    first: &[RuleForm],
    second: &[RuleForm],
    key: SingleKey,
) -> Result<SingleDifference, AllocError>
    requires first { HaveSets pool.now first.now }
    requires second { HaveSets pool.now second.now }
    ensures { IfOk result (λ both. both ≡ both_labelled counting (rules_of pool.now first.now) (rules_of pool.now second.now) key) }
{
    Ok(SingleDifference {
        key,
        first: value(alloc, pool, counting, first, key)?,
        second: value(alloc, pool, counting, second, key)?,
    })
}

// What counts at a key, where it has an entry.
fn value(
    alloc: Global,
    pool: &Pool,
    counting: Counting,
    forms: &[RuleForm],
    key: SingleKey,
) -> Result<Option<Set>, AllocError>
    requires { HaveSets pool.now forms.now }
    ensures { IfOk result (λ value. option_map (λ set. record { key = key; given = bits_of set }) value ≡ labelled_value counting (rules_of pool.now forms.now) key) }
{
    let sets = given_sets(alloc, forms, key)?;
    if sets.len() == 0 {
        return Ok(None);
    }
    let given = union_of(alloc, pool, &sets)?;
    let counted = counted(alloc, pool, counting, forms, key, given)?;
    if is_entry(counting, &counted) {
        Ok(Some(counted))
    } else {
        Ok(None)
    }
}

// Whether a key has an entry, where that counts.
fn is_entry(counting: Counting, given: &Set) -> bool
    ensures { (key : SingleKey) → result ≡ is_entry counting (record { key = key; given = bits_of given.now }) }
{
    match counting {
        Counting::All => true,
        Counting::Permissions => given.count() > 0,
    }
}

// What counts of what is given at a key.
fn counted(
    alloc: Global,
    pool: &Pool,
    counting: Counting,
    forms: &[RuleForm],
    key: SingleKey,
    given: Set,
) -> Result<Set, AllocError>
    requires { HaveSets pool.now forms.now }
    ensures { IfOk result (λ set. bits_of set ≡ counted counting key (given_together (filter (is_labelled (unconditioned key)) (rules_of pool.now forms.now))) (bits_of given)) }
{
    match counting {
        Counting::All => Ok(given),
        Counting::Permissions => {
            if key.condition == 0 {
                return Ok(given);
            }
            let unconditional = given_sets(alloc, forms, key.unconditioned())?;
            let others = union_of(alloc, pool, &unconditional)?;
            Ok(given.difference(alloc, &others)?)
        }
    }
}

// The sets that the forms of a key give.
fn given_sets(alloc: Global, forms: &[RuleForm], key: SingleKey) -> Result<Vec<u32>, AllocError>
    ensures { IfOk result (λ sets. sets.items ≡ map (λ form. form.given) (filter (is_form_of key) forms.now)) }
{
    let mut sets = Vec::new(alloc);
    for form in forms {
        if is_form_of(key, *form) {
            sets.push(form.given)?;
        }
    }
    Ok(sets)
}

// Whether a form has the class, the file name and the condition of a key.
fn is_form_of(key: SingleKey, form: RuleForm) -> bool
    ensures { result ≡ is_form_of key form }
{
    form.class == key.class && form.name == key.name && form.condition == key.condition
}
