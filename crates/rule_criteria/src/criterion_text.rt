// The text of a criterion.
ghost use Rattle.std.specs.Prelude.{◌≡◌, string_bytes};

use std::marker::Model;

/// The text of a criterion: one name, a list that is cut at its commas, or a pattern. Contracts see its bytes.
#[derive(Drop)]
pub struct CriterionText {
    text: String,
}

impl Model for CriterionText {
    ghost use Rattle.std.specs.Prelude.{ℕ, List, string_bytes};

    ghost Value = { List ℕ };

    ghost view = { λ t. string_bytes t.text };
}

impl CriterionText {
    /// The criterion of that text. It takes no memory.
    pub fn from_string(text: String) -> CriterionText
        ensures { result ≡ string_bytes text }
    {
        CriterionText { text }
    }

    /// The text.
    pub fn as_str(&self) -> &str
        ensures { result.now ≡ self.now }
    {
        self.text.as_str()
    }
}
