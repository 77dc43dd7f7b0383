//! Access vectors as a kind of record: in the table, and under a condition.

ghost use Rattle.std.specs.Prelude.{◌≡◌, None, IfOk, OnOk};
ghost use Rattle.pol_cursor.specs.Outcome.{Answers, Yields};
ghost use Rattle.pol_avtab.specs.AvRecord.{av_at, av_in, av_end, HasAv, av_references};
ghost use Rattle.pol_avtab.specs.Inner.DuplicateKeys.{rule_behind, after_collecting};

use crate::av_keys::AvKeys;
use crate::av_rec::AvRec;
use crate::av_view::{AvView, read_av};
use pol_cursor::{
    Copied, Cursor, Names, NestedRecord, ReadAfter, ReadError, Record, RecordView, Referring,
};
use pol_fields::Fault;
use std::alloc::{AllocError, Global};
use std::marker::Model;

/// What a rule of the table is read under: the version, and the keys of the rules before it, or none where keys are not
/// collected. It is handed on from rule to rule, so the keys are kept behind a pointer.
#[derive(Drop)]
pub struct AvContext {
    pub(crate) version: u32,
    pub(crate) keys: Box<AvKeys>,
    pub(crate) collects: bool,
}

impl Model for AvContext {
    ghost use Rattle.pol_avtab.specs.Inner.DuplicateKeys.{Collecting};

    ghost Value = { Collecting };

    ghost view = { λ c. record { version = c.version; keys = c.keys.value; collects = c.collects } };
}

/// The kind of access vectors.
#[derive(Drop)]
pub struct Av;

impl Record for Av {
    type Owned = AvRec;

    ghost standing = { av_in };

    ghost has = { HasAv };
}

impl<'a> RecordView<'a> for Av {
    type View = AvView<'a>;

    ghost shown = { λ v. v };

    fn at(bytes: &'a [u8], place: u32) -> AvView<'a> {
        AvView::at(bytes, place)
    }
}

impl<'a> Copied<'a> for Av {
    fn rec(view: &Self::View, alloc: Global) -> Result<Self::Owned, AllocError> {
        view.rec(alloc)
    }
}

impl<'a> Referring<'a> for Av {
    ghost references = { av_references };

    fn dangling<N: Names>(view: &Self::View, names: &N) -> Option<Fault> {
        view.dangling(names)
    }
}

// In the table.
impl<'a> ReadAfter<'a> for Av {
    type Context = AvContext;

    ghost reads = { rule_behind };

    ghost after = { after_collecting };

    fn pass(c: &mut Cursor<'a>, mut context: AvContext) -> Result<AvContext, ReadError>
        ensures exact { Yields (λ _. av_in c.old.bytes c.old.place) result (rule_behind context) c.old c.new }
        ensures stands { OnOk result (HasAv c.old.bytes c.old.place) }
        ensures after { IfOk result (λ context_new. context_new ≡ after_collecting context (av_in c.old.bytes c.old.place)) }
    {
        let view = read_av(c, context.version, Some(&context.keys))?;
        if context.collects {
            context.keys.add(&view)?;
        }
        Ok(context)
    }
}

// Under a condition, in a policy of a version.
impl NestedRecord for Av {
    type Setting = u32;

    ghost reads = { λ version. av_at version None };

    ghost ends = { av_end };

    fn end(bytes: &[u8], place: u32) -> u32 {
        AvView::at(bytes, place).end()
    }

    fn pass(c: &mut Cursor<'_>, version: &u32) -> Result<(), Fault>
        ensures exact { Answers (λ _. av_in c.old.bytes c.old.place) result (av_at version.now None) c.old c.new }
        ensures stands { OnOk result (HasAv c.old.bytes c.old.place) }
        ensures next { OnOk result (c.new.place ≡ av_end c.old.bytes c.old.place) }
    {
        read_av(c, *version, None)?;
        Ok(())
    }
}
