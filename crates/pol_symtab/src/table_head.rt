//! The two numbers before the records of a table.

ghost use Rattle.std.specs.Prelude.{◌≡◌, ◌≤◌, IfOk};
ghost use Rattle.pol_cursor.specs.Outcome.{Answers};
ghost use Rattle.pol_symtab.specs.SymbolTables.{nprim_test, table_head_at};

use pol_cursor::{Cursor, refuse};
use pol_fields::fields::{TABLE_NEL, TABLE_NPRIM};
use pol_fields::{Cause, Fault};

/// The numbers before the records of a table.
#[derive(Clone, Copy, Debug, PartialEq, Eq)]
pub struct TableHead {
    /// The greatest value that the table may declare.
    pub nprim: u32,
    /// How many records there are.
    pub nel: u32,
}

/// `TableTooLarge` where a table would declare more than 65,535 values.
fn nprim_cause(nprim: u32) -> Option<Cause>
    ensures { result ≡ nprim_test nprim }
{
    if nprim <= 65535 {
        None
    } else {
        Some(Cause::TableTooLarge)
    }
}

/// The numbers before the records of a table. `TableTooLarge` where it would declare more than 65,535 values.
#[tactic(auto, unfolding(crate::specs::SymbolTables::table_head_at), using(pol_cursor::proofs::Facts::number_is))]
pub fn read_table_head(c: &mut Cursor<'_>) -> Result<TableHead, Fault>
    ensures exact { Answers (λ head. head) result table_head_at c.old c.new }
    ensures small { IfOk result (λ head. head.nprim ≤ 65535) }
{
    let place = c.place();
    let nprim = c.u32(TABLE_NPRIM)?;
    refuse(nprim_cause(nprim), place, TABLE_NPRIM)?;
    let nel = c.u32(TABLE_NEL)?;
    Ok(TableHead { nprim, nel })
}
