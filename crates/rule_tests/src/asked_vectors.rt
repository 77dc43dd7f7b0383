// Which access vectors may be asked, told without a branch.
ghost use Rattle.std.specs.Prelude.{◌≡◌, ◌+◌, ◌-◌, ◌<◌, ◌≤◌, Bool, length, option_map, take};
ghost use Rattle.std.specs.List.{filter, range_with_len};
ghost use Rattle.pol_avtab.specs.declared.AvRec.{AvRec};
ghost use Rattle.rule_tests.specs.Inner.AskedVectors.{VectorMarks, is_asked_at, is_kind_marked, is_low_asked, is_value_asked, low_marks, may_be_asked, standing_at};

use crate::kinds::{is_any_asked, is_kind_asked};
use pol_avtab::{AvTable, AvView};
use pol_read::{RuleKind, rule_kind};
use std::marker::Model;
use value_groups::DenseSet;

/// Which access vectors may be asked: by the seven lowest bits of what they specify, and by the values of their sources and of their
/// targets where some are asked. Where a kind with ioctl numbers is asked, no access vector is refused by what it specifies. Contracts
/// see the marks.
#[derive(Drop)]
pub struct AskedVectors<'s> {
    kinds: KindMarks,
    sources: Option<&'s DenseSet>,
    targets: Option<&'s DenseSet>,
}

impl<'s> Model for AskedVectors<'s> {
    ghost Value = { VectorMarks };

    ghost view = { λ asked. record { kinds = asked.kinds.marks; sources = option_map (λ set. set.now) asked.sources; targets = option_map (λ set. set.now) asked.targets } };
}

impl<'s> AskedVectors<'s> {
    /// The access vectors of some kinds, from some sources and to some targets.
    pub fn new(
        kinds: &[bool; 12],
        sources: Option<&'s DenseSet>,
        targets: Option<&'s DenseSet>,
    ) -> AskedVectors<'s>
        ensures { result ≡ record { kinds = low_marks kinds.now; sources = option_map (λ set. set.now) sources.entry; targets = option_map (λ set. set.now) targets.entry } }
    {
        let kinds = KindMarks::of(kinds);
        AskedVectors {
            kinds,
            sources,
            targets,
        }
    }

    /// Whether an access vector may be asked. Its kind is looked at first.
    #[inline(always)]
    pub fn may_be(&self, view: &AvView<'_>) -> bool
        ensures { result ≡ may_be_asked self.now view.now.value }
    {
        self.kinds.has(view) && self.has(view)
    }

    /// Puts the numbers of the rules of a table that may be asked, from one number up to another, at the front of other numbers, and
    /// tells how many they are. No branch waits for a rule.
    #[inline(never)]
    pub fn gather(&self, table: &AvTable<'_>, from: u32, to: u32, numbers: &mut [u32; 128]) -> usize
        requires rising { from ≤ to }
        requires within { to ≤ length table.now }
        requires few { to ≤ from + 128 }
        ensures few { result ≤ 128 }
        ensures all { take result numbers.new ≡ filter (is_asked_at self.now table.now) (range_with_len from (to - from)) }
    {
        match (self.sources, self.targets) {
            (None, None) => gather(&self.kinds, table, from, to, numbers),
            _ => gather(self, table, from, to, numbers),
        }
    }
}

// ---- marks

// What tells which access vectors may be asked.
trait Marks {
    ghost is_marked: { Self → AvRec → Bool };

    // Whether an access vector may be.
    fn has(&self, view: &AvView<'_>) -> bool
        ensures { result ≡ is_marked self.now view.now.value };
}

// The kinds that may be asked, by the seven lowest bits of what is specified.
#[derive(Drop)]
struct KindMarks {
    marks: [bool; 128],
}

impl KindMarks {
    // The marks of some kinds.
    fn of(kinds: &[bool; 12]) -> KindMarks
        ensures { result.marks ≡ low_marks kinds.now }
    {
        let mut marks = [false; 128];
        for low in 0..128 {
            marks[low as usize] = is_low_asked(kinds, low);
        }
        KindMarks { marks }
    }
}

impl Marks for KindMarks {
    ghost is_marked = { λ kinds av. is_kind_marked kinds.marks av };

    #[inline(always)]
    fn has(&self, view: &AvView<'_>) -> bool {
        self.marks[(view.specified() % 128) as usize]
    }
}

impl<'s> Marks for AskedVectors<'s> {
    ghost is_marked = { λ asked av. may_be_asked asked av };

    #[inline(always)]
    fn has(&self, view: &AvView<'_>) -> bool {
        is_value_asked(self.sources, view.source())
            & is_value_asked(self.targets, view.target())
            & self.kinds.has(view)
    }
}

// Whether a value is asked, where some are.
#[inline(always)]
fn is_value_asked(asked: Option<&DenseSet>, value: u16) -> bool
    ensures { result ≡ is_value_asked (option_map (λ set. set.now) asked.entry) value }
{
    match asked {
        Some(set) => set.has(u32::from(value)),
        None => true,
    }
}

// Whether access vectors whose seven lowest bits are these may be of a kind that is asked.
fn is_low_asked(kinds: &[bool; 12], low: u16) -> bool
    ensures { result ≡ is_low_asked kinds.now low }
{
    let extended = [
        RuleKind::AllowXperm,
        RuleKind::AuditallowXperm,
        RuleKind::DontauditXperm,
    ];
    is_any_asked(kinds, &extended) || is_kind_asked(kinds, rule_kind(low))
}

// Puts the numbers of the rules of a table that have marks, from one number up to another, at the front of other numbers, and tells how
// many they are.
#[inline(always)]
fn gather<M: Marks>(
    marks: &M,
    table: &AvTable<'_>,
    from: u32,
    to: u32,
    numbers: &mut [u32; 128],
) -> usize
    requires rising { from ≤ to }
    requires within { to ≤ length table.now }
    requires few { to ≤ from + 128 }
    ensures few { result ≤ 128 }
    ensures all { take result numbers.new ≡ filter (standing_at (M.is_marked marks.now) table.now) (range_with_len from (to - from)) }
{
    let mut count = 0;
    for number in from..to {
        numbers[count] = number;
        count += usize::from(marks.has(&table.view(number)));
    }
    count
}
