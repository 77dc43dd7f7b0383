//! The kind of the records of the table of classes.

use crate::class_rec::ClassRec;
use crate::class_view::{ClassView, read_class};
use pol_commons::CommonList;
use pol_cursor::{Cursor, ReadAfter, ReadError, Record, RecordView};
use pol_symtab::{Symbol, SymbolKind, TableContext};

/// The kind of classes in a policy of that version. Each of them is primary.
#[derive(Drop)]
pub struct Class<const VERSION: u32>;

/// What a class is read under: the commons besides what the classes before it have taken.
#[derive(Drop)]
pub struct ClassContext<'a> {
    pub commons: CommonList<'a>,
    pub table: TableContext<'a>,
}

impl<const VERSION: u32> Record for Class<VERSION> {
    ghost use Rattle.pol_classes.specs.ClassRecord.{class_in, HasClass};

    type Owned = ClassRec;

    ghost standing = { class_in VERSION };

    ghost has = { HasClass VERSION };
}

impl<'a, const VERSION: u32> RecordView<'a> for Class<VERSION> {
    type View = ClassView<'a>;

    ghost shown = { λ v. v };

    fn at(bytes: &'a [u8], place: u32) -> ClassView<'a> {
        ClassView::at(bytes, place, VERSION)
    }
}

impl<'a, const VERSION: u32> ReadAfter<'a> for Class<VERSION> {
    ghost use Rattle.pol_classes.specs.ClassRecord.{class_at, with_class};

    type Context = ClassContext<'a>;

    ghost reads = { λ context. class_at VERSION context.table.taken context.table.nprim context.commons };

    ghost after = { λ context class. record context { table = record context.table { taken = with_class context.table.taken class } } };

    fn pass(c: &mut Cursor<'a>, context: ClassContext<'a>) -> Result<ClassContext<'a>, ReadError> {
        let mut context = context;
        let table = &context.table;
        let view = read_class(c, VERSION, &table.taken, table.nprim, &context.commons)?;
        context.table.taken.add(view.name(), Some(view.value()))?;
        Ok(context)
    }
}

impl<const VERSION: u32> SymbolKind for Class<VERSION> {
    ghost use Rattle.pol_classes.specs.ClassRecord.{spell_class, ClassFits};
    ghost use Rattle.std.specs.Prelude.{true};

    ghost name_of = { λ class. class.name };

    ghost value_of = { λ class. class.value };

    ghost is_primary = { λ class. true };

    ghost spelling = { spell_class };

    ghost fits = { ClassFits VERSION };
}

impl<'a, const VERSION: u32> Symbol<'a> for Class<VERSION> {
    ghost use Rattle.std.specs.Prelude.{refl};
    ghost use Rattle.pol_classes.specs.Inner.ClassFreshness.{class_is_fresh};

    ghost nprim_of = { λ context. context.table.nprim };

    ghost claims_of = { λ context. context.table.taken };

    fn name(view: &ClassView<'a>) -> &'a [u8] {
        view.name()
    }

    fn value(view: &ClassView<'a>) -> u32 {
        view.value()
    }

    fn is_primary(_view: &ClassView<'a>) -> bool {
        true
    }

    ghost fresh = { λ context. class_is_fresh VERSION context.table.taken context.table.nprim context.commons };

    ghost claimed = { λ context class. (refl, refl) };
}
