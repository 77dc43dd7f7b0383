// The references of a record.
ghost use Rattle.std.specs.Prelude.{◌≡◌};
ghost use Rattle.pol_cursor.specs.References.{dangling_of};
ghost use Rattle.pol_cursor.specs.Mentions.{references_of};

use crate::{Names, dangling};
use pol_fields::{Fault, Field, TableKind};

/// A value of a symbol table, as a field names it.
#[derive(Clone, Copy)]
pub struct Mention {
    pub place: u32,
    pub field: Field,
    pub table: TableKind,
    pub value: u32,
}

impl Mention {
    /// The value that a field of a record names.
    pub fn new(field: Field, place: u32, table: TableKind, value: u32) -> Mention
        ensures { result ≡ record { place = place; field = field; table = table; value = value } }
    {
        Mention {
            place,
            field,
            table,
            value,
        }
    }
}

/// The first of the references whose value no primary record declares, as a fault at its field.
pub fn first_dangling<N: Names>(names: &N, mentions: &[Mention]) -> Option<Fault>
    ensures { result ≡ dangling_of (N.named names.now) (references_of mentions.now) }
{
    for mention in mentions {
        match dangling(
            names,
            mention.place,
            mention.field,
            mention.table,
            mention.value,
        ) {
            Some(fault) => return Some(fault),
            None => {}
        }
    }
    None
}
