// What goes wrong in the runs of a case that is run many times.

/// What goes wrong in the runs of a case.
#[derive(Clone, Copy)]
pub enum Sweep {
    /// The policy ends before each of its bytes.
    Cut,
    /// Each call of open and read fails: first those of the policy, then those of the map, and then those of
    /// the checklist.
    Files,
    /// Each pattern that is built is refused.
    Patterns,
    /// Each write to standard output fails.
    Out,
    /// Each write to standard error fails.
    Err,
}

impl Sweep {
    /// The sweep of that word.
    pub fn of(word: &str) -> Option<Sweep> {
        if word == "cut" {
            Some(Sweep::Cut)
        } else if word == "files" {
            Some(Sweep::Files)
        } else if word == "patterns" {
            Some(Sweep::Patterns)
        } else if word == "out" {
            Some(Sweep::Out)
        } else if word == "err" {
            Some(Sweep::Err)
        } else {
            None
        }
    }
}
