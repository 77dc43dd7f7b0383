// The lines of a check and of the whole list.
ghost use Rattle.std.specs.Prelude.{◌≡◌, ◌++◌, OnOk, decimal};
ghost use Rattle.se_verdicts.specs.CheckAnswer.{check_line, outcome_text, total_line};

use check_list::Check;
use itoa::Buffer;
use std::alloc::AllocError;

/// Adds the line of a check that finds so many.
#[tactic(auto, unfolding(crate::specs::CheckAnswer::check_line))]
pub fn push_check_line(
    check: &Check<'_>,
    count: usize,
    buffer: &mut Vec<u8>,
) -> Result<(), AllocError>
    ensures { OnOk result (buffer.new.items ≡ buffer.old.items ++ check_line check.now count) }
{
    buffer.extend_from_slice(check.name())?;
    buffer.extend_from_slice(b" ")?;
    buffer.extend_from_slice(check.kind().word().as_bytes())?;
    buffer.extend_from_slice(b" ")?;
    push_outcome(count, buffer)?;
    buffer.extend_from_slice(b"\n")
}

// Adds how a check ends that finds so many.
#[tactic(auto, unfolding(crate::specs::CheckAnswer::outcome_text))]
fn push_outcome(count: usize, buffer: &mut Vec<u8>) -> Result<(), AllocError>
    ensures { OnOk result (buffer.new.items ≡ buffer.old.items ++ outcome_text count) }
{
    if count == 0 {
        return buffer.extend_from_slice(b"pass");
    }
    buffer.extend_from_slice(b"fail ")?;
    push_number(count as u64, buffer)
}

/// Adds the line that counts the failed checks.
#[tactic(auto, unfolding(crate::specs::CheckAnswer::total_line))]
pub fn push_total_line(failed: u64, buffer: &mut Vec<u8>) -> Result<(), AllocError>
    ensures { OnOk result (buffer.new.items ≡ buffer.old.items ++ total_line failed) }
{
    buffer.extend_from_slice(b"Failed checks: ")?;
    push_number(failed, buffer)?;
    buffer.extend_from_slice(b"\n")
}

// Adds a number.
fn push_number(number: u64, buffer: &mut Vec<u8>) -> Result<(), AllocError>
    ensures { OnOk result (buffer.new.items ≡ buffer.old.items ++ decimal number) }
{
    let mut digits = Buffer::new();
    buffer.extend_from_slice(digits.format(number).as_bytes())
}
