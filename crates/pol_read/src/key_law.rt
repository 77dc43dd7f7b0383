// What is said of the keys of rules, claimed by a function that does nothing.
ghost use Rattle.std.specs.Prelude.{◌≡◌, ℕ};
ghost use Rattle.pol_symbols.specs.declared.Symbols.{Symbols};
ghost use Rattle.pol_read.specs.StoredRules.{StoredRule};
ghost use Rattle.pol_read.specs.RuleOrder.{rule_names, names_cmp, rule_key, keys_cmp};

/// The keys of two rules compare as the rules are listed: by kinds, by the names of sources, targets and classes, and by numbers.
pub fn rule_keys_have_law()
    ensures { (symbols : Symbols) (m n : ℕ) (r s : StoredRule) → keys_cmp (rule_key symbols m r) (rule_key symbols n s) ≡ names_cmp (rule_names symbols m r) (rule_names symbols n s) }
{}
