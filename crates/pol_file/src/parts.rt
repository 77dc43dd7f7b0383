// The parts of a policy, in the order of the file.
use crate::header_view::HeaderView;
use crate::type_rows::TypeRows;
use pol_avtab::AvTable;
use pol_bitmap::BitmapView;
use pol_conditionals::Conditionals;
use pol_contexts::Contexts;
use pol_genfs::GenfsList;
use pol_symbols::Symbols;
use pol_trans::{NameTrans, RangeTransList, RoleAllowList, RoleTransList};

/// What stands before the symbol tables.
#[derive(Drop)]
pub struct Front<'a> {
    pub header: HeaderView<'a>,
    /// The numbers of the policy's capabilities are its bits.
    pub capabilities: BitmapView<'a>,
    /// Bit t stands for the type value t.
    pub permissive: BitmapView<'a>,
}

/// The rules but for the range transitions.
pub struct RuleLists<'a> {
    pub table: AvTable<'a>,
    pub conditionals: Conditionals<'a>,
    pub role_trans: RoleTransList<'a>,
    pub role_allows: RoleAllowList<'a>,
    pub name_trans: NameTrans<'a>,
}

// Its parts go in one call, wherever it is dropped.
impl Drop for RuleLists<'_> {
    fn drop(self) {
        let RuleLists {
            table,
            conditionals,
            role_trans,
            role_allows,
            name_trans,
        } = self;
    }
}

/// What stands behind those.
pub struct LabelLists<'a> {
    pub contexts: Contexts<'a>,
    pub genfs: GenfsList<'a>,
    pub range_trans: RangeTransList<'a>,
    pub type_rows: TypeRows<'a>,
}

// Its parts go in one call, wherever it is dropped.
impl Drop for LabelLists<'_> {
    fn drop(self) {
        let LabelLists {
            contexts,
            genfs,
            range_trans,
            type_rows,
        } = self;
    }
}

/// A whole policy.
pub struct Parts<'a> {
    pub front: Front<'a>,
    pub symbols: Symbols<'a>,
    pub rules: RuleLists<'a>,
    pub labels: LabelLists<'a>,
}

// Its parts go in one call, wherever it is dropped.
impl Drop for Parts<'_> {
    fn drop(self) {
        let Parts {
            front,
            symbols,
            rules,
            labels,
        } = self;
    }
}
