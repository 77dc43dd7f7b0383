//! Categories whose values follow one another.

ghost use Rattle.std.specs.Prelude.{◌≡◌, ◌≤◌, ◌+◌, ◌==◌};

/// Declared categories whose values rise by one each.
#[derive(Clone, Copy)]
pub struct Run {
    pub first: u32,
    pub last: u32,
    ghost rises: { first ≤ last },
}

impl Run {
    /// The run of one value.
    pub fn of(value: u32) -> Run
        ensures first { result.first ≡ value }
        ensures last { result.last ≡ value }
    {
        Run {
            first: value,
            last: value,
        }
    }

    /// Whether a value is the next one.
    pub fn goes_on(self, value: u32) -> bool
        ensures { result ≡ (self.last + 1 == value) }
    {
        match self.last.checked_add(1) {
            Some(next) => next == value,
            None => false,
        }
    }
}
