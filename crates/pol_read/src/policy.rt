ghost use Rattle.std.specs.Prelude.{ℕ, List, ◌≡◌, ◌<◌, ◌≤◌, ◌-◌, Ok, Some, None, IfOk, option_map, slice_get, length};
ghost use Rattle.pol_fields.specs.declared.limits.TheConstants.{MAX_POLICY_BYTES};
ghost use Rattle.pol_conditionals.specs.CondNodeRecord.{node_condition};
ghost use Rattle.pol_file.specs.Acceptance.{accept, undeclared, Accepts};
ghost use Rattle.pol_file.specs.TypeValues.{IsTypeValue, HasTypeValues};

use crate::rule_index::{RuleIndex, index_rules};
use pol_avtab::AvTable;
use pol_bitmap::BitmapView;
use pol_conditionals::Conditionals;
use pol_contexts::Contexts;
use pol_cursor::ReadError;
use pol_datums::TypeView;
use pol_expr::ConditionView;
use pol_fields::TableKind;
use pol_file::{Parts, read_file, row_of};
use pol_genfs::GenfsList;
use pol_symbols::Symbols;
use pol_trans::{NameTrans, RangeTransList, RoleAllowList, RoleTransList};
use std::alloc::{AllocError, Global};
use std::marker::Model;

/// A policy that was accepted. Contracts see its parts.
pub struct Policy<'a> {
    // The file that it was read from.
    pub(crate) bytes: &'a [u8],
    pub(crate) parts: Parts<'a>,
    // What finds a stored rule by its number.
    pub(crate) index: RuleIndex,
}

// Its parts go in one call, wherever it is dropped.
impl Drop for Policy<'_> {
    fn drop(self) {
        let Policy {
            bytes,
            parts,
            index,
        } = self;
    }
}

impl<'a> Model for Policy<'a> {
    ghost use Rattle.std.specs.Prelude.{◌≡◌, Ok};
    ghost use Rattle.pol_file.specs.declared.Parts.{Parts};
    ghost use Rattle.pol_file.specs.Acceptance.{accept};
    ghost use Rattle.pol_file.specs.TypeValues.{HasTypeValues};
    ghost use Rattle.pol_read.specs.Inner.RuleNumbers.{IsIndexOf};

    ghost Value = { Parts };

    ghost view = { λ p. p.parts };

    ghost invariant = { λ p. (accept p.bytes.now ≡ Ok p.parts) × HasTypeValues p.parts × IsIndexOf p.parts p.index };
}

impl<'a> Policy<'a> {
    /// Some file was accepted as this policy, and so each value that it names is declared. A call says that where a proof rests on it;
    /// it does nothing.
    pub fn is_accepted(&self)
        ensures accepted { (bytes : List ℕ) × (accept bytes ≡ Ok self.now) }
        ensures declared { undeclared self.now ≡ None }
    {
        let _file = self.bytes;
    }

    /// The version of the format, 28 to 34.
    pub fn version(&self) -> u32
        ensures { result ≡ self.now.front.header.version }
    {
        self.parts.front.header.version()
    }

    /// Bit 0x1 is MLS, 0x2 refuses unknown classes and 0x4 allows them.
    pub fn config(&self) -> u32
        ensures { result ≡ self.now.front.header.config }
    {
        self.parts.front.header.config()
    }

    /// The numbers of the policy's capabilities are the bits.
    pub fn capabilities(&self) -> &BitmapView<'a>
        ensures { result.now ≡ self.now.front.capabilities }
    {
        &self.parts.front.capabilities
    }

    /// The types whose domains are permissive: bit t stands for the type value t.
    pub fn permissive(&self) -> &BitmapView<'a>
        ensures { result.now ≡ self.now.front.permissive }
    {
        &self.parts.front.permissive
    }

    /// The symbol tables.
    pub fn symbols(&self) -> &Symbols<'a>
        ensures { result.now ≡ self.now.symbols }
    {
        &self.parts.symbols
    }

    /// How many type values there are, at most 65,535.
    pub fn type_count(&self) -> u32
        ensures count { result ≡ self.now.symbols.types.nprim }
        ensures few { result ≤ 65535 }
    {
        self.parts.symbols.prims(TableKind::Types)
    }

    /// The record of that number in the table of types, from 0 on. It has a type value, also where it is an alias.
    #[tactic(auto, using(pol_file::proofs::PolicyTypes::type_value_at))]
    pub fn type_record(&self, number: u32) -> TypeView<'a>
        requires { number < length self.now.symbols.types.records }
        ensures is { slice_get self.now.symbols.types.records number ≡ Some result }
        ensures value { IsTypeValue self.now.symbols result.value.value }
    {
        self.parts.symbols.types.view(number)
    }

    /// The row of the type map for a type value: bit v - 1 stands for the value v, of a type or an attribute that the type is.
    pub fn row(&self, value: u32) -> BitmapView<'a>
        requires least { 0 < value }
        requires most { value ≤ self.now.symbols.types.nprim }
        ensures { option_map (λ row. row.value) (slice_get self.now.labels.type_rows (value - 1)) ≡ Some result }
    {
        row_of(&self.parts.labels.type_rows, value)
    }

    /// The access vector table.
    pub fn table(&self) -> &AvTable<'a>
        ensures { result.now ≡ self.now.rules.table }
    {
        &self.parts.rules.table
    }

    /// The conditional nodes.
    pub fn conditionals(&self) -> &Conditionals<'a>
        ensures { result.now ≡ self.now.rules.conditionals }
    {
        &self.parts.rules.conditionals
    }

    /// The condition of the node of that number, from 0 on.
    pub fn condition(&self, node: u32) -> ConditionView<'a>
        requires { node < length self.now.rules.conditionals }
        ensures { option_map node_condition (slice_get self.now.rules.conditionals node) ≡ Some result }
    {
        self.parts.rules.conditionals.condition(node)
    }

    /// The role transitions.
    pub fn role_trans(&self) -> &RoleTransList<'a>
        ensures { result.now ≡ self.now.rules.role_trans }
    {
        &self.parts.rules.role_trans
    }

    /// The role allows.
    pub fn role_allows(&self) -> &RoleAllowList<'a>
        ensures { result.now ≡ self.now.rules.role_allows }
    {
        &self.parts.rules.role_allows
    }

    /// The file-name transitions.
    pub fn name_trans(&self) -> &NameTrans<'a>
        ensures { result.now ≡ self.now.rules.name_trans }
    {
        &self.parts.rules.name_trans
    }

    /// The range transitions.
    pub fn range_trans(&self) -> &RangeTransList<'a>
        ensures { result.now ≡ self.now.labels.range_trans }
    {
        &self.parts.labels.range_trans
    }

    /// The contexts of objects.
    pub fn contexts(&self) -> &Contexts<'a>
        ensures { result.now ≡ self.now.labels.contexts }
    {
        &self.parts.labels.contexts
    }

    /// The contexts of the files of file systems that have no labels of their own.
    pub fn genfs(&self) -> &GenfsList<'a>
        ensures { result.now ≡ self.now.labels.genfs }
    {
        &self.parts.labels.genfs
    }
}

/// Reads a policy of at most 64 MiB. Nothing is reserved by a claimed count alone.
///
/// The error is the first fault in file order; where there is none, it is the first reference whose value no primary record
/// declares, as `Dangling`.
pub fn read<'a>(alloc: Global, bytes: &'a [u8]) -> Result<Policy<'a>, ReadError>
    requires { length bytes.now ≤ MAX_POLICY_BYTES }
    ensures { Accepts (λ policy. policy) result bytes.now }
{
    let parts = read_file(alloc, bytes)?;
    Ok(indexed(alloc, bytes, parts)?)
}

// The policy of these parts of a file.
#[tactic(auto, using(crate::proofs::RuleCounts::accepted_has_few_rules, pol_file::proofs::Acceptances::accepted_has_type_values))]
fn indexed<'a>(alloc: Global, bytes: &'a [u8], parts: Parts<'a>) -> Result<Policy<'a>, AllocError>
    requires size { length bytes.now ≤ MAX_POLICY_BYTES }
    requires accepted { accept bytes.now ≡ Ok parts }
    ensures { IfOk result (λ policy. policy ≡ parts.entry) }
{
    let index = index_rules(alloc, &parts)?;
    Ok(Policy {
        bytes,
        parts,
        index,
    })
}
