//! What listings by names promise.

ghost use Rattle.std.specs.Prelude.{◌≡◌, ℕ, List};
ghost use Rattle.pol_cursor.specs.Outcome.{Got};
ghost use Rattle.pol_fields.specs.declared.TableKind.{TableKind};
ghost use Rattle.pol_symbols.specs.declared.symbols.Symbols.{Symbols};
ghost use Rattle.pol_symbols.specs.PolicySymbols.{symbols_at};
ghost use Rattle.info_lines.specs.ListedOnce.{IsListedOnce};
ghost use Rattle.info_lines.specs.NameOrder.{primary_numbers};

/// The numbers in the order of the names are those of the primary records, each once, and their names rise in the order of their
/// bytes: in each symbol table of a policy, whatever its bytes.
#[tactic(auto, using(crate::proofs::ListedTables::tables_listed))]
pub fn primary_records_are_listed_once()
    ensures { (version : ℕ) (bytes : List ℕ) (place next : ℕ) (symbols : Symbols) (table : TableKind) → symbols_at version bytes place ≡ Got symbols next → IsListedOnce symbols table (primary_numbers symbols table) }
{}
