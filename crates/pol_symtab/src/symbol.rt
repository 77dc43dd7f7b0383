//! What is a symbol: a record with a name and a value.

ghost use Rattle.std.specs.Prelude.{◌≡◌, ℕ, Bool, List};
ghost use Rattle.pol_symtab.specs.Claims.{Claims, claims_after};
ghost use Rattle.pol_symtab.specs.Inner.Freshness.{Gives, IsFresh};

use pol_cursor::{ReadAfter, Record, RecordView};

/// What a record of a symbol table says. A primary record declares a value and names it; an alias gives one more name to a value.
pub trait SymbolKind: Record {
    /// The name of a record.
    ghost name_of: { Self.Owned → List ℕ };

    /// The value that it names.
    ghost value_of: { Self.Owned → ℕ };

    /// Whether it is primary, and so no alias.
    ghost is_primary: { Self.Owned → Bool };

    /// The bytes of a record.
    ghost spelling: { Self.Owned → List ℕ };

    /// What the members of a record have to be for the bytes to say them.
    ghost fits: { Self.Owned → Type 0 };
}

/// A kind of record of a symbol table, which is read under the claims of the records before it.
pub trait Symbol<'a>: SymbolKind + RecordView<'a> + ReadAfter<'a> {
    /// The greatest value of the table, by the context of a record.
    ghost nprim_of: { Self.Context → ℕ };

    /// What the records before one have taken, by its context.
    ghost claims_of: { Self.Context → Claims };

    /// The name of a record.
    fn name(view: &Self::View) -> &'a [u8]
        ensures { result.now ≡ Self.name_of (Self.shown view.now).value };

    /// The value that it names.
    fn value(view: &Self::View) -> u32
        ensures { result ≡ Self.value_of (Self.shown view.now).value };

    /// Whether it is primary, and so no alias.
    fn is_primary(view: &Self::View) -> bool
        ensures { result ≡ Self.is_primary (Self.shown view.now).value };

    /// The first law: a record is refused unless its name is new and, where it is primary, its value is new and 1 to nprim.
    ghost fresh: { (context : Self.Context) → Gives (Self.reads context) (λ x. IsFresh (nprim_of context) (claims_of context) (Self.name_of x) (Self.is_primary x) (Self.value_of x)) };

    /// The second law: the context after a record has its claims besides, and the same nprim.
    ghost claimed: { (context : Self.Context) (x : Self.Owned) → (claims_of (Self.after context x) ≡ claims_after (claims_of context) (Self.name_of x) (Self.is_primary x) (Self.value_of x)) × (nprim_of (Self.after context x) ≡ nprim_of context) };
}
