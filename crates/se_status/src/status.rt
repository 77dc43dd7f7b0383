// How a run ends.
use check_list::ListFault;
use perm_map::MapFault;
use pol_fields::Fault;
use pol_unheld::Unheld;
use se_outside::{PatternKind, Slot};

/// How a run ends.
#[derive(Clone, Copy, Debug, PartialEq, Eq)]
pub enum Status {
    /// The answer was written whole.
    Done,
    /// The word of that number is the first that does not fit.
    Usage(u64),
    /// The file of that slot was not opened or not read.
    ReadFault(Slot),
    /// The file of that slot has more bytes than are read.
    TooLarge(Slot),
    /// The policy is none: its first fault.
    BadPolicy(Fault),
    /// The permission map is none: its first faulty line.
    BadMap(MapFault),
    /// The checklist is none, or names what the policy does not have: its first faulty line.
    BadList(ListFault),
    /// The version of that number cannot hold the policy, and what of it.
    CannotHold(u32, Unheld),
    /// A name of the word of that number is one that the policy does not have.
    UnknownName(u64),
    /// An element of the word of that number is no number and no range.
    BadNumber(u64),
    /// The word of that number is no pattern, or its pattern was refused.
    BadPattern(u64, PatternKind),
    /// The answer was not written, or not whole.
    WriteFault,
    /// Out of memory.
    Memory,
}

impl Status {
    ghost use Rattle.std.specs.Prelude.{◌≡◌};
    ghost use Rattle.se_status.specs.Status.{code_of};

    /// The number that the program ends with.
    pub fn code(&self) -> u8
        ensures { result ≡ code_of self.now }
    {
        match self {
            Status::Done => 0,
            Status::TooLarge(_)
            | Status::BadPolicy(_)
            | Status::BadMap(_)
            | Status::BadList(_)
            | Status::CannotHold(..)
            | Status::UnknownName(_)
            | Status::BadNumber(_)
            | Status::BadPattern(..) => 1,
            Status::Usage(_) => 2,
            Status::ReadFault(_) | Status::WriteFault => 3,
            Status::Memory => 5,
        }
    }
}
