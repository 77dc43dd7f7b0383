//! The text of ioctl numbers.

ghost use Rattle.std.specs.Prelude.{◌≡◌, ◌+◌, ◌==◌, ◌∷◌, [], ◌++◌, ℕ, List, codes, OnOk, IfOk};
ghost use Rattle.rule_text.specs.IoctlTexts.{number_text, run_text, ioctl_text};
ghost use Rattle.rule_text.specs.Inner.IoctlRuns.{numbers_in, text_left};

use crate::ioctl_run::{Run, Unwritten};
use pol_avtab::XPerms;
use pol_texts::push_groups_text;
use std::alloc::AllocError;

/// Adds the ioctl numbers of an extended rule as the set of their maximal runs. Nothing is kept but one run.
pub fn push_ioctl_text(buffer: &mut Vec<u8>, numbers: &XPerms<'_>) -> Result<(), AllocError>
    ensures { OnOk result (buffer.new.items ≡ buffer.old.items ++ ioctl_text numbers.now) }
{
    let mut unwritten = Unwritten::Nothing;
    for number in numbers.numbers() {
        unwritten = push_number(buffer, unwritten, number)?;
    }
    push_end(buffer, unwritten)
}

// Takes the next number, and answers what is not written yet.
fn push_number(
    buffer: &mut Vec<u8>,
    unwritten: Unwritten,
    number: u16,
) -> Result<Unwritten, AllocError>
    ensures { (rest : List ℕ) → IfOk result (λ now. buffer.new.items ++ text_left now rest ≡ buffer.old.items ++ text_left unwritten (number ∷ rest)) }
{
    match unwritten {
        Unwritten::Nothing => Ok(Unwritten::First(Run::of(number))),
        Unwritten::First(run) => {
            if run.goes_on(number) {
                return Ok(Unwritten::First(Run {
                    first: run.first,
                    last: number,
                }));
            }
            buffer.extend_from_slice(b"{ ")?;
            push_run(buffer, run)?;
            Ok(Unwritten::Later(Run::of(number)))
        }
        Unwritten::Later(run) => {
            if run.goes_on(number) {
                return Ok(Unwritten::Later(Run {
                    first: run.first,
                    last: number,
                }));
            }
            buffer.push(b' ')?;
            push_run(buffer, run)?;
            Ok(Unwritten::Later(Run::of(number)))
        }
    }
}

// Adds what is left where no number comes any more.
#[tactic(auto, using(crate::proofs::RunTexts::nothing_left, crate::proofs::RunTexts::first_left, crate::proofs::RunTexts::later_left))]
fn push_end(buffer: &mut Vec<u8>, unwritten: Unwritten) -> Result<(), AllocError>
    ensures { OnOk result (buffer.new.items ≡ buffer.old.items ++ text_left unwritten []) }
{
    match unwritten {
        Unwritten::Nothing => buffer.extend_from_slice(b"{ }"),
        Unwritten::First(run) => push_run(buffer, run),
        Unwritten::Later(run) => push_last(buffer, run),
    }
}

// Adds the last run behind others, and the brace.
fn push_last(buffer: &mut Vec<u8>, run: Run) -> Result<(), AllocError>
    ensures { OnOk result (buffer.new.items ≡ buffer.old.items ++ 32 ∷ (run_text (numbers_in run) ++ codes " }")) }
{
    buffer.push(b' ')?;
    push_run(buffer, run)?;
    buffer.extend_from_slice(b" }")
}

// Adds a run.
#[tactic(auto, using(crate::proofs::RunTexts::text_of_one, crate::proofs::RunTexts::text_of_more))]
fn push_run(buffer: &mut Vec<u8>, run: Run) -> Result<(), AllocError>
    ensures { OnOk result (buffer.new.items ≡ buffer.old.items ++ run_text (numbers_in run)) }
{
    if run.first == run.last {
        push_number_text(buffer, run.first)
    } else {
        push_ends(buffer, run)
    }
}

// Adds a run of more numbers than one.
fn push_ends(buffer: &mut Vec<u8>, run: Run) -> Result<(), AllocError>
    ensures { OnOk result (buffer.new.items ≡ buffer.old.items ++ (number_text run.first ++ 45 ∷ number_text run.last)) }
{
    push_number_text(buffer, run.first)?;
    buffer.push(b'-')?;
    push_number_text(buffer, run.last)
}

// Adds a number.
#[tactic(auto, unfolding(crate::specs::IoctlTexts::number_text))]
fn push_number_text(buffer: &mut Vec<u8>, number: u16) -> Result<(), AllocError>
    ensures { OnOk result (buffer.new.items ≡ buffer.old.items ++ number_text number) }
{
    buffer.extend_from_slice(b"0x")?;
    push_groups_text(buffer, &[(number / 256) as u8, (number % 256) as u8])
}
