// The rules that a graph of transitions keeps, found in one pass over all rules that count.
ghost use Rattle.std.specs.Prelude.{◌≡◌, ◌≤◌, ◌+◌, true, Some, IfOk, OnOk, length, slice_get};
ghost use Rattle.pol_read.specs.DeclaredRules.{IsDeclaredRule};
ghost use Rattle.pol_read.specs.StoredRules.{stored, stored_rules};
ghost use Rattle.pol_expand.specs.JoinedTypes.{has_type_ends};
ghost use Rattle.rules_between.specs.Inner.RuleTables.{AreEndsOf};
ghost use Rattle.dom_trans.specs.declared.keeping.Wanted.{Wanted};
ghost use Rattle.counted_rules.specs.CountedRules.{Counted, counts};
ghost use Rattle.rule_grants.specs.Grants.{gives};
ghost use Rattle.dom_trans.specs.DefaultRules.{sets_default};
ghost use Rattle.dom_trans.specs.Inner.Keeping.{wanted_in, is_asked_class, AreKept, GainsWhere, IsKept};

use crate::default_domains::{is_value, sets_default};
use counted_rules::CountedRules;
use pol_fields::TableKind;
use pol_read::Rule;
use pol_symbols::Symbols;
use rule_grants::{Permission, gives, permission_named};
use rules_between::RulesWithEnds;
use std::alloc::{AllocError, Global};

/// What rules are tested for: permissions, and the classes of processes and of files.
#[derive(Clone, Copy)]
pub struct Wanted {
    pub transition: Option<Permission>,
    pub dyntransition: Option<Permission>,
    pub setexec: Option<Permission>,
    pub setcurrent: Option<Permission>,
    pub execute: Option<Permission>,
    pub entrypoint: Option<Permission>,
    pub process: Option<u32>,
    pub file: Option<u32>,
}

/// The rules that give each permission, and those that set the default domain of a process, with their ends.
#[derive(Drop)]
pub struct Kept {
    pub transition: RulesWithEnds,
    pub dyntransition: RulesWithEnds,
    pub setexec: RulesWithEnds,
    pub setcurrent: RulesWithEnds,
    pub execute: RulesWithEnds,
    pub entrypoint: RulesWithEnds,
    pub defaults: RulesWithEnds,
}

// What the rules of a policy are tested for.
#[tactic(auto, unfolding(rule_grants::specs::Names::process, rule_grants::specs::Names::file, rule_grants::specs::Names::transition, rule_grants::specs::Names::dyntransition, rule_grants::specs::Names::setexec, rule_grants::specs::Names::setcurrent, rule_grants::specs::Names::execute, rule_grants::specs::Names::entrypoint))]
pub fn wanted_in(symbols: &Symbols<'_>) -> Wanted
    ensures { result ≡ wanted_in symbols.now }
{
    Wanted {
        transition: permission_named(symbols, b"process", b"transition"),
        dyntransition: permission_named(symbols, b"process", b"dyntransition"),
        setexec: permission_named(symbols, b"process", b"setexec"),
        setcurrent: permission_named(symbols, b"process", b"setcurrent"),
        execute: permission_named(symbols, b"file", b"execute"),
        entrypoint: permission_named(symbols, b"file", b"entrypoint"),
        process: symbols.by_name(TableKind::Classes, b"process"),
        file: symbols.by_name(TableKind::Classes, b"file"),
    }
}

/// Goes through the rules of a policy once, and keeps those that count. Of a rule of another class than those of processes and files, only
/// the ends are read.
pub fn kept_rules(alloc: Global, rules: &CountedRules<'_>) -> Result<Kept, AllocError>
    ensures kept { IfOk result (AreKept rules.now (wanted_in rules.now.policy.symbols) (length (stored_rules rules.now.policy))) }
    ensures few { length (stored_rules rules.now.policy) ≤ 400000000 }
{
    let policy = rules.policy();
    let wanted = wanted_in(policy.symbols());
    let mut kept = nothing_kept(alloc);
    for number in 0..policy.rule_count() {
        if wanted.asks_class(policy.rule_ends(number).class) {
            kept.add_counted(&wanted, rules, number, &policy.rule(number))?;
        }
    }
    Ok(kept)
}

// No rule yet.
fn nothing_kept(alloc: Global) -> Kept
    ensures { (rules : Counted) (wanted : Wanted) → AreKept rules wanted 0 result }
{
    Kept {
        transition: RulesWithEnds::new(alloc),
        dyntransition: RulesWithEnds::new(alloc),
        setexec: RulesWithEnds::new(alloc),
        setcurrent: RulesWithEnds::new(alloc),
        execute: RulesWithEnds::new(alloc),
        entrypoint: RulesWithEnds::new(alloc),
        defaults: RulesWithEnds::new(alloc),
    }
}

impl Wanted {
    // Whether a class is that of processes or that of files.
    fn asks_class(&self, class: u32) -> bool
        ensures { result ≡ is_asked_class self.now class }
    {
        is_value(self.process, class) || is_value(self.file, class)
    }
}

impl Kept {
    // Adds a rule to the lists whose tests it passes, where it counts.
    fn add_counted(
        &mut self,
        wanted: &Wanted,
        rules: &CountedRules<'_>,
        number: u32,
        rule: &Rule<'_>,
    ) -> Result<(), AllocError>
        requires rule { slice_get (stored_rules rules.now.policy) number ≡ Some (stored rule.now) }
        requires declared { IsDeclaredRule rules.now.policy (stored rule.now) }
        requires kept { AreKept rules.now wanted.now number self.old }
        ensures { OnOk result (AreKept rules.now wanted.now (number + 1) self.new) }
    {
        if rules.counts(rule) {
            self.add(wanted, rules, number, rule)
        } else {
            Ok(())
        }
    }

    // Adds a rule that counts to the lists whose tests it passes.
    fn add(
        &mut self,
        wanted: &Wanted,
        rules: &CountedRules<'_>,
        number: u32,
        rule: &Rule<'_>,
    ) -> Result<(), AllocError>
        requires rule { slice_get (stored_rules rules.now.policy) number ≡ Some (stored rule.now) }
        requires declared { IsDeclaredRule rules.now.policy (stored rule.now) }
        requires counted { counts rules.now (stored rule.now) ≡ true }
        requires kept { AreKept rules.now wanted.now number self.old }
        ensures { OnOk result (AreKept rules.now wanted.now (number + 1) self.new) }
    {
        add_giving(&mut self.transition, wanted.transition, rules, number, rule)?;
        add_giving(
            &mut self.dyntransition,
            wanted.dyntransition,
            rules,
            number,
            rule,
        )?;
        add_giving(&mut self.setexec, wanted.setexec, rules, number, rule)?;
        add_giving(&mut self.setcurrent, wanted.setcurrent, rules, number, rule)?;
        add_giving(&mut self.execute, wanted.execute, rules, number, rule)?;
        add_giving(&mut self.entrypoint, wanted.entrypoint, rules, number, rule)?;
        add_setting(&mut self.defaults, wanted.process, rules, number, rule)
    }
}

// Adds a rule that counts where it gives a permission.
fn add_giving(
    list: &mut RulesWithEnds,
    permission: Option<Permission>,
    rules: &CountedRules<'_>,
    number: u32,
    rule: &Rule<'_>,
) -> Result<(), AllocError>
    requires rule { slice_get (stored_rules rules.now.policy) number ≡ Some (stored rule.now) }
    requires declared { IsDeclaredRule rules.now.policy (stored rule.now) }
    requires counted { counts rules.now (stored rule.now) ≡ true }
    requires list { IsKept rules.now number (gives permission) list.old }
    ensures { OnOk result (IsKept rules.now (number + 1) (gives permission) list.new) }
{
    add_where(list, gives(permission, rule), rules, number, rule)
}

// Adds a rule that counts where it sets the default type of a class.
fn add_setting(
    list: &mut RulesWithEnds,
    class: Option<u32>,
    rules: &CountedRules<'_>,
    number: u32,
    rule: &Rule<'_>,
) -> Result<(), AllocError>
    requires rule { slice_get (stored_rules rules.now.policy) number ≡ Some (stored rule.now) }
    requires declared { IsDeclaredRule rules.now.policy (stored rule.now) }
    requires counted { counts rules.now (stored rule.now) ≡ true }
    requires list { IsKept rules.now number (sets_default class) list.old }
    ensures { OnOk result (IsKept rules.now (number + 1) (sets_default class) list.new) }
{
    add_where(list, sets_default(class, rule), rules, number, rule)
}

// Adds the rule of a number, with its ends, where a test of it holds.
fn add_where(
    list: &mut RulesWithEnds,
    passes: bool,
    rules: &CountedRules<'_>,
    number: u32,
    rule: &Rule<'_>,
) -> Result<(), AllocError>
    requires before { AreEndsOf rules.now.policy list.old.rules.items list.old.sources.items list.old.targets.items }
    requires rule { slice_get (stored_rules rules.now.policy) number ≡ Some (stored rule.now) }
    requires declared { IsDeclaredRule rules.now.policy (stored rule.now) }
    requires types { passes ≡ true → has_type_ends rule.now.kind ≡ true }
    ensures rules { OnOk result (GainsWhere number passes list.old.rules.items list.new.rules.items) }
    ensures ends { OnOk result (AreEndsOf rules.now.policy list.new.rules.items list.new.sources.items list.new.targets.items) }
{
    if passes {
        list.add(rules.policy(), number, rule)
    } else {
        Ok(())
    }
}
