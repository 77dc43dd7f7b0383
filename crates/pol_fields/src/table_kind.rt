//! The eight symbol tables.

ghost use Rattle.std.specs.Prelude.{◌≡◌};

/// A symbol table.
#[derive(Clone, Copy, Debug, PartialEq, Eq)]
pub enum TableKind {
    Commons,
    Classes,
    Roles,
    Types,
    Users,
    Booleans,
    Levels,
    Categories,
}

impl TableKind {
    ghost use Rattle.pol_fields.specs.FaultWords.{table_word};

    /// The table's word in a message, as `types`.
    pub fn word(&self) -> &'static str
        ensures { result.now ≡ table_word self.now }
    {
        match self {
            TableKind::Commons => "commons",
            TableKind::Classes => "classes",
            TableKind::Roles => "roles",
            TableKind::Types => "types",
            TableKind::Users => "users",
            TableKind::Booleans => "booleans",
            TableKind::Levels => "levels",
            TableKind::Categories => "categories",
        }
    }
}
