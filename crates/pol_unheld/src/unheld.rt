// What a version cannot hold.
ghost use Rattle.std.specs.Prelude.{◌≡◌};

/// What a version cannot hold of a policy, in the order in which it is looked for.
#[derive(Clone, Copy, Debug, PartialEq, Eq)]
pub enum Unheld {
    /// Extended access vectors, which version 30 brought.
    Extended,
    /// Extended access vectors under a condition, which version 34 brought.
    ConditionalExtended,
    /// The tables of InfiniBand, which version 31 brought.
    Infiniband,
    /// More than 67,108,864 bytes.
    TooLong,
}

impl Unheld {
    ghost use Rattle.pol_unheld.specs.UnheldWords.{unheld_word};

    /// Its word in a message: its name.
    pub fn word(&self) -> &'static str
        ensures { result.now ≡ unheld_word self.now }
    {
        match self {
            Unheld::Extended => "Extended",
            Unheld::ConditionalExtended => "ConditionalExtended",
            Unheld::Infiniband => "Infiniband",
            Unheld::TooLong => "TooLong",
        }
    }
}
