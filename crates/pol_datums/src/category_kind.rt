//! The kind of the records of the table of categories.

use crate::category_rec::CategoryRec;
use crate::category_view::{CategoryView, read_category};
use crate::datum::{Datum, DatumKind};
use crate::flags::is_primary_flag;
use pol_cursor::{Cursor, string_in, u32_in};
use pol_fields::Fault;
use pol_symtab::TableContext;

/// The kind of categories. Aliases are among them.
pub type Category = DatumKind<CategoryRec>;

impl Datum for CategoryRec {
    ghost use Rattle.pol_datums.specs.Flags.{is_primary_flag};
    ghost use Rattle.pol_datums.specs.CategoryRecord.{category_at, category_in, HasCategory, CategoryFits};
    ghost use Rattle.pol_datums.specs.Inner.DatumFreshness.{category_is_fresh};

    ghost standing = { category_in };

    ghost has = { HasCategory };

    ghost reads = { category_at };

    ghost name_of = { λ category. category.name };

    ghost value_of = { λ category. category.value };

    ghost is_primary = { λ category. is_primary_flag category.isalias };

    ghost fits = { CategoryFits };

    fn read<'a>(c: &mut Cursor<'a>, context: &TableContext<'a>) -> Result<CategoryView<'a>, Fault> {
        read_category(c, &context.taken, context.nprim)
    }

    fn name<'a>(view: &CategoryView<'a>) -> &'a [u8] {
        let len = u32_in(view.bytes, view.place as usize);
        string_in(view.bytes, view.place as usize + 12, len as usize)
    }

    fn value(view: &CategoryView<'_>) -> u32 {
        u32_in(view.bytes, view.place as usize + 4)
    }

    fn is_primary(view: &CategoryView<'_>) -> bool {
        is_primary_flag(view.isalias())
    }

    ghost fresh = { category_is_fresh };
}
