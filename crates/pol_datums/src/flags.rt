// Flags of records.
ghost use Rattle.std.specs.Prelude.{◌≡◌, ◌≤◌, ◌+◌, OnOk, IfOk, length};
ghost use Rattle.pol_cursor.specs.Outcome.{Answers};
ghost use Rattle.pol_cursor.specs.Parts.{num};
ghost use Rattle.pol_datums.specs.Flags.{flag_test, flag_at, is_primary_flag};

use pol_cursor::{Cursor, refuse};
use pol_fields::{Cause, Fault, Field};

/// `BadFlag` where a flag is neither 0 nor 1.
pub fn flag_cause(flag: u32) -> Option<Cause>
    ensures { result ≡ flag_test flag }
{
    if flag <= 1 {
        None
    } else {
        Some(Cause::BadFlag)
    }
}

/// Whether a sensitivity or a category is no alias.
pub fn is_primary_flag(isalias: u32) -> bool
    ensures { result ≡ is_primary_flag isalias }
{
    isalias == 0
}

/// The flag at the cursor. `BadFlag` where it is neither 0 nor 1.
#[tactic(auto, unfolding(crate::specs::Flags::flag_at), using(pol_cursor::proofs::Facts::number_is))]
pub fn read_flag(c: &mut Cursor<'_>, field: Field) -> Result<u32, Fault>
    ensures exact { Answers (λ flag. flag) result (flag_at field) c.old c.new }
    ensures same { IfOk result (λ flag. flag ≡ num c.old.bytes c.old.place 4) }
    ensures next { OnOk result ((c.new.place ≡ c.old.place + 4) × (c.new.place ≤ length c.old.bytes)) }
{
    let place = c.place();
    let flag = c.u32(field)?;
    refuse(flag_cause(flag), place, field)?;
    Ok(flag)
}
