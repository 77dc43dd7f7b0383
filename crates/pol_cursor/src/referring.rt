// The references of the records of a list.
ghost use Rattle.std.specs.Prelude.{List};
ghost use Rattle.pol_cursor.specs.References.{AreDeclared, dangling_of, references_in};

use crate::{Names, RecordView, Records};
use pol_fields::Fault;

/// A kind of record that refers to values of the symbol tables.
pub trait Referring<'a>: RecordView<'a> {
    ghost use Rattle.std.specs.Prelude.{◌≡◌, List};
    ghost use Rattle.pol_cursor.specs.References.{Placed, Reference};

    /// The references of a record, in file order.
    ghost references: { Placed Self.Owned → List Reference };

    /// The first of them whose value no primary record declares, as a fault at its field. Takes no memory.
    fn dangling<N: Names>(view: &Self::View, names: &N) -> Option<Fault>
        ensures { result ≡ dangling_of (N.named names.now) (references (Self.shown view.now)) };
}

/// Refuses the records of a list at their first reference, in file order, whose value no primary record declares.
pub fn check_records<'a, K: Referring<'a> + Drop, N: Names>(
    records: &Records<'a, K>,
    names: &N,
) -> Result<(), Fault>
where
    K::View: Drop,
    ensures { AreDeclared result (N.named names.now) (references_in K.references records.now) }
{
    for i in 0..records.len() {
        match K::dangling(&records.view(i), names) {
            Some(fault) => return Err(fault),
            None => {}
        }
    }
    Ok(())
}
