// What is said of the values of types that are declared, claimed by a function that does nothing.
ghost use Rattle.std.specs.Prelude.{◌≡◌, ℕ, List, Ok, true, is_some};
ghost use Rattle.pol_fields.specs.declared.TableKind.TheVariants.{Types};
ghost use Rattle.pol_symbols.specs.PolicySymbols.{flavour_in};
ghost use Rattle.pol_symbols.specs.declared.Symbols.{Symbols};
ghost use Rattle.pol_file.specs.Acceptance.{accept};
ghost use Rattle.pol_file.specs.TypeValues.{IsTypeValue};
ghost use Rattle.pol_file.specs.declared.Parts.{Parts};
ghost use Rattle.pol_read.specs.DeclaredRules.{IsDeclaredIn};

/// A value that is declared among the types is declared as an attribute or as none, and in an accepted policy it is 1 up to the
/// number of type values.
pub fn declared_types_have_law()
    ensures flavour { (symbols : Symbols) (value : ℕ) → IsDeclaredIn symbols Types value → is_some (flavour_in symbols value) ≡ true }
    ensures value { (bytes : List ℕ) (policy : Parts) (value : ℕ) → accept bytes ≡ Ok policy → IsDeclaredIn policy.symbols Types value → IsTypeValue policy.symbols value }
{}
