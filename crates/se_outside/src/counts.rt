// Counts of faults, which stand still at their last value.
ghost use Rattle.std.specs.Prelude.{◌≡◌, ◌≤◌, MatchResult, Ok, IsErr, OnErr};
ghost use Rattle.se_outside.specs.Outside.{Counts, Rose};
ghost use Rattle.se_outside.specs.Plan.{FaultsOnErr};

use crate::Failed;
use std::io;

/// Counts a fault.
pub fn fault(faults: &mut u64) -> Failed
    ensures later { faults.old ≤ faults.new }
    ensures rose { Rose faults.old faults.new }
    ensures counted { Counts faults.old faults.new }
{
    *faults = faults.saturating_add(1);
    Failed
}

/// Passes on what the system answered, and counts an error.
pub fn counted<T: Drop>(faults: &mut u64, answer: io::Result<T>) -> Result<T, Failed>
    ensures answer { MatchResult answer (λ x. result ≡ Ok x) (λ _. IsErr result) }
    ensures later { faults.old ≤ faults.new }
    ensures rose { OnErr result (Rose faults.old faults.new) }
    ensures faults { FaultsOnErr faults.old faults.new result }
{
    match answer {
        Ok(x) => Ok(x),
        Err(_) => Err(fault(faults)),
    }
}
