// What sesearch is asked.
use rule_criteria::Criteria;
use se_items::Window;
use se_words::Named;

/// What `sesearch` is asked of a policy: the rules that meet some criteria.
#[derive(Drop)]
pub struct SearchRequest<'w> {
    /// The policy's name.
    pub policy: Named<'w>,
    /// At least one kind of rules is asked for.
    pub criteria: Criteria,
    /// Whether each rule is listed between single types.
    pub singles: bool,
    /// So many lines are left out first.
    pub from: u64,
    /// At most so many lines, 1 or more.
    pub limit: Option<u64>,
}

impl SearchRequest<'_> {
    ghost use Rattle.std.specs.Prelude.{◌≡◌};

    /// Which lines are asked for.
    pub fn window(&self) -> Window
        ensures { result ≡ record { from = self.now.from; limit = self.now.limit } }
    {
        Window {
            from: self.from,
            limit: self.limit,
        }
    }
}
