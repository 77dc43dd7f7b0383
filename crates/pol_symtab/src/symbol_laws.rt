//! The laws of the length and the name of a symbol's record.

ghost use Rattle.std.specs.Prelude.{◌≡◌};
ghost use Rattle.pol_symtab.specs.Claims.{claims_after};
ghost use Rattle.pol_symtab.specs.Inner.Freshness.{Gives, IsFresh};

use crate::symbol::Symbol;

// The laws of a kind of symbols, for who calls it.
pub(crate) fn symbol_laws<'a, K: Symbol<'a>>()
    ensures fresh { (context : K.Context) → Gives (K.reads context) (λ x. IsFresh (K.nprim_of context) (K.claims_of context) (K.name_of x) (K.is_primary x) (K.value_of x)) }
    ensures claimed { (context : K.Context) (x : K.Owned) → (K.claims_of (K.after context x) ≡ claims_after (K.claims_of context) (K.name_of x) (K.is_primary x) (K.value_of x)) × (K.nprim_of (K.after context x) ≡ K.nprim_of context) }
{}
