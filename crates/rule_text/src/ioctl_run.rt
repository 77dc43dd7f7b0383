// Runs of ioctl numbers, as they are written one after the other.
ghost use Rattle.std.specs.Prelude.{◌≡◌, ◌≤◌, ◌+◌, ◌==◌};

/// Numbers that rise by one each.
#[derive(Clone, Copy)]
pub struct Run {
    pub first: u16,
    pub last: u16,
    ghost rises: { first ≤ last },
}

impl Run {
    /// The run of one number.
    pub fn of(number: u16) -> Run
        ensures first { result.first ≡ number }
        ensures last { result.last ≡ number }
    {
        Run {
            first: number,
            last: number,
        }
    }

    /// Whether a number is the next one.
    pub fn goes_on(self, number: u16) -> bool
        ensures { result ≡ (self.last + 1 == number) }
    {
        match self.last.checked_add(1) {
            Some(next) => next == number,
            None => false,
        }
    }
}

/// What of the numbers that have come is not written yet.
#[derive(Clone, Copy)]
pub enum Unwritten {
    /// No number has come.
    Nothing,
    /// The first run.
    First(Run),
    /// A run behind others that are written, with a brace before them.
    Later(Run),
}
