// The answer of make.
ghost use Rattle.std.specs.Prelude.{◌≡◌, ◌++◌, [], IfOk, OnOk};
ghost use Rattle.pol_file.specs.Acceptance.{accept};
ghost use Rattle.pol_tree.specs.TreeSpelling.{spell};
ghost use Rattle.pol_make.specs.Made.{Allowed, made};
ghost use Rattle.se_items.specs.Writing.{Sends};
ghost use Rattle.se_info.specs.ListingText.{line_text};
ghost use Rattle.se_status.specs.Conclusion.{Concludes, IsWritten};
ghost use Rattle.se_options.specs.MakeRequest.{make_view};
ghost use Rattle.se_make.specs.MakeAnswer.{counts_text, make_answer, make_text, read_text, singles_line};

use crate::singles::count_singles;
use pol_cursor::{ReadError, Written};
use pol_make::make;
use pol_read::{Policy, read};
use pol_texts::push_decimal;
use se_info::write_summary;
use se_items::{WriteEnd, write_all};
use se_options::MakeRequest;
use se_outside::Sink;
use se_status::{Status, status_written};
use std::alloc::{AllocError, Global};

/// Answers what make is asked.
pub fn answer_make<S: Sink>(alloc: Global, asks: &MakeRequest, out: &mut S) -> Status
    ensures answers { Concludes (make_answer (make_view asks.now))
        (S.state out.old) (S.state out.new) result }
    ensures written { IsWritten result }
{
    status_written(write_answer(alloc, asks, out))
}

// Writes the policy of so many types, or its summary.
#[tactic(auto, unfolding(crate::specs::MakeAnswer::make_text), using(se_items::proofs::Wrotes::nothing_sent))]
fn write_answer<S: Sink>(alloc: Global, asks: &MakeRequest, out: &mut S) -> Result<(), WriteEnd>
    ensures { Sends (S.state out.old) (S.state out.new) (make_text (make_view asks.now)) result }
{
    let bytes = made_bytes(alloc, asks.types)?;
    if asks.bytes {
        Ok(write_all(out, &bytes)?)
    } else {
        write_read(alloc, asks.types, &bytes, out)
    }
}

// The bytes of the policy of so many types.
fn made_bytes(alloc: Global, types: u32) -> Result<Vec<u8>, AllocError>
    requires { Allowed types }
    ensures { IfOk result (λ bytes. bytes.items ≡ spell (made types)) }
{
    let tree = make(alloc, types)?;
    let mut bytes = Vec::new(alloc);
    tree.write(&mut bytes)?;
    Ok(bytes)
}

// Writes the summary of the policy of so many types, which is read from its bytes.
fn write_read<S: Sink>(alloc: Global, types: u32, bytes: &[u8], out: &mut S) -> Result<(), WriteEnd>
    requires types { Allowed types }
    requires bytes { bytes.now ≡ spell (made types) }
    ensures { Sends (S.state out.old) (S.state out.new) (read_text (accept bytes.now)) result }
{
    match read(alloc, bytes) {
        Ok(policy) => {
            let end = write_counts(alloc, &policy, out);
            drop(policy);
            end
        }
        Err(ReadError::Memory) => Err(WriteEnd::Memory),
        Err(ReadError::Fault(_)) => unreachable!(),
    }
}

// Writes the summary of the policy, and how many rules between single types it has.
#[tactic(auto, unfolding(crate::specs::MakeAnswer::counts_text), using(se_items::proofs::Wrotes::nothing_sent))]
fn write_counts<S: Sink>(alloc: Global, policy: &Policy<'_>, out: &mut S) -> Result<(), WriteEnd>
    ensures { Sends (S.state out.old) (S.state out.new) (counts_text policy.now) result }
{
    let singles = singles_text(alloc, policy)?;
    write_summary(alloc, policy, out)?;
    Ok(write_all(out, &singles)?)
}

// The line of how many rules between single types there are.
fn singles_text(alloc: Global, policy: &Policy<'_>) -> Result<Vec<u8>, AllocError>
    ensures { IfOk result (λ text. text.items ≡ line_text [] (singles_line policy.now)) }
{
    let count = count_singles(alloc, policy)?;
    let mut text = Vec::from_slice(alloc, b"Singles: ")?;
    push_decimal(&mut text, count)?;
    text.extend_from_slice(b"\n")?;
    Ok(text)
}
