//! The text of categories that follow one another.

ghost use Rattle.std.specs.Prelude.{◌≡◌, ◌∷◌, ◌++◌, ◌+◌, ℕ, List, Some, OnOk, IfOk};
ghost use Rattle.pol_fields.specs.declared.table_kind.TableKind.TheVariants.{Categories};
ghost use Rattle.pol_cursor.specs.References.{name_of};
ghost use Rattle.pol_mls.specs.MlsTexts.{run_text, categories_of};
ghost use Rattle.pol_mls.specs.Inner.Runs.{values_of, text_left};

use crate::run::Run;
use pol_cursor::{Names, push_name};
use pol_fields::TableKind;
use std::alloc::AllocError;

/// Appends a run.
#[tactic(auto, using(crate::proofs::RunTexts::text_of_one, crate::proofs::RunTexts::text_of_two, crate::proofs::RunTexts::text_of_more))]
pub fn push_run<N: Names>(out: &mut Vec<u8>, run: Run, names: &N) -> Result<(), AllocError>
    ensures { OnOk result (out.new.items ≡ out.old.items ++ run_text (N.named names.now) (values_of run)) }
{
    let rise = run.last - run.first;
    if rise == 0 {
        push_name(out, TableKind::Categories, run.first, names)
    } else if rise == 1 {
        push_ends(out, run, b',', names)
    } else {
        push_ends(out, run, b'.', names)
    }
}

// Appends the names of a run's first and last values.
fn push_ends<N: Names>(
    out: &mut Vec<u8>,
    run: Run,
    separator: u8,
    names: &N,
) -> Result<(), AllocError>
    ensures { OnOk result (out.new.items ≡ out.old.items ++ (name_of (N.named names.now) Categories run.first ++ separator ∷ name_of (N.named names.now) Categories run.last)) }
{
    push_name(out, TableKind::Categories, run.first, names)?;
    out.push(separator)?;
    push_name(out, TableKind::Categories, run.last, names)
}

/// Takes the next value, and answers the run that it is the last of. A run that it does not go on is written.
pub fn push_value<N: Names>(
    out: &mut Vec<u8>,
    run: Option<Run>,
    value: u32,
    names: &N,
) -> Result<Run, AllocError>
    ensures { (rest : List ℕ) → IfOk result (λ now. out.new.items ++ text_left (N.named names.now) (Some now) rest ≡ out.old.items ++ text_left (N.named names.now) run (value ∷ rest)) }
{
    match run {
        None => {
            out.push(b':')?;
            Ok(Run::of(value))
        }
        Some(run) => {
            if run.goes_on(value) {
                return Ok(Run {
                    first: run.first,
                    last: value,
                });
            }
            push_run(out, run, names)?;
            out.push(b',')?;
            Ok(Run::of(value))
        }
    }
}
