//! A path of a file system of genfs in the buffer, and how it is read.

ghost use Rattle.std.specs.Prelude.{◌≡◌, ◌+◌, IfOk, OnOk};
ghost use Rattle.pol_cursor.specs.Outcome.{Answers};
ghost use Rattle.pol_cursor.specs.Parts.{num, number};
ghost use Rattle.pol_cursor.specs.References.{dangling_of};
ghost use Rattle.pol_genfs.specs.GenfsRecord.{path_in, HasPath, class_place, class_references, context_of_path, path_references};

use crate::genfs_rec::GenfsPathRec;
use pol_cursor::{
    ByteList, Copied, Cursor, Names, NestedRecord, Record, RecordView, dangling, name_end,
    name_standing, read_name, u32_in,
};
use pol_fields::fields::{GENFS_CLASS, GENFS_PATH, GENFS_PATHLEN};
use pol_fields::{Fault, TableKind};
use pol_mls::{ContextView, context_end, read_context};
use std::alloc::{AllocError, Global};
use std::marker::Model;

/// The context of the files of a file system whose paths begin with a path, in the buffer.
#[derive(Drop)]
pub struct GenfsPathView<'a> {
    bytes: &'a [u8],
    place: u32,
}

impl<'a> Model for GenfsPathView<'a> {
    ghost use Rattle.pol_cursor.specs.References.{Placed};
    ghost use Rattle.pol_genfs.specs.declared.genfs_rec.GenfsPathRec.{GenfsPathRec};
    ghost use Rattle.pol_genfs.specs.GenfsRecord.{path_in, HasPath};

    ghost Value = { Placed GenfsPathRec };

    ghost view = { λ v. record { place = v.place; value = path_in v.bytes.now v.place } };

    ghost invariant = { λ v. HasPath v.bytes.now v.place };
}

impl<'a> GenfsPathView<'a> {
    /// The path.
    pub fn path(&self) -> &'a [u8]
        ensures { result.now ≡ self.now.value.path }
    {
        name_standing(self.bytes, self.place)
    }

    /// The value of the class of these files, and 0 where it is any.
    pub fn class(&self) -> u32
        ensures { result ≡ self.now.value.class }
    {
        u32_in(self.bytes, name_end(self.bytes, self.place) as usize)
    }

    /// Their context.
    #[tactic(auto, using(pol_cursor::proofs::Facts::length_part, pol_mls::proofs::ContextPlaces::context_ends))]
    pub fn context(&self) -> ContextView<'a>
        ensures { result ≡ context_of_path self.now }
    {
        ContextView::at(self.bytes, name_end(self.bytes, self.place) + 4)
    }

    /// The first reference, the class before those of the context, as a fault at its field, that no primary record
    /// declares.
    #[tactic(auto, using(pol_cursor::proofs::DanglingLists::dangling_none, pol_cursor::proofs::DanglingLists::undeclared_first))]
    pub fn dangling<N: Names>(&self, names: &N) -> Option<Fault>
        ensures { result ≡ dangling_of (N.named names.now) (path_references self.now) }
    {
        match self.dangling_class(names) {
            Some(fault) => Some(fault),
            None => self.context().dangling(names),
        }
    }

    #[tactic(auto, using(pol_cursor::proofs::Facts::length_part, pol_mls::proofs::ContextPlaces::context_ends))]
    fn dangling_class<N: Names>(&self, names: &N) -> Option<Fault>
        ensures { result ≡ dangling_of (N.named names.now) (class_references (class_place self.now) self.now.value.class) }
    {
        let class = self.class();
        if class == 0 {
            return None;
        }
        let place = name_end(self.bytes, self.place);
        dangling(names, place, GENFS_CLASS, TableKind::Classes, class)
    }

    /// The path, owned.
    pub fn rec(&self, alloc: Global) -> Result<GenfsPathRec, AllocError>
        ensures { IfOk result (λ entry. entry ≡ self.now.value) }
    {
        Ok(GenfsPathRec {
            path: ByteList::copy_of(alloc, self.path())?,
            class: self.class(),
            context: self.context().rec(alloc)?,
        })
    }
}

/// The kind of these paths.
#[derive(Drop)]
pub struct GenfsPath;

impl Record for GenfsPath {
    type Owned = GenfsPathRec;

    ghost standing = { path_in };

    ghost has = { HasPath };
}

impl NestedRecord for GenfsPath {
    ghost use Rattle.pol_genfs.specs.GenfsRecord.{path_at, genfs_path_end};

    type Setting = ();

    ghost reads = { λ _. path_at };

    ghost ends = { genfs_path_end };

    #[tactic(auto, using(pol_mls::proofs::ContextPlaces::context_ends))]
    fn end(bytes: &[u8], place: u32) -> u32 {
        context_end(bytes, name_end(bytes, place) + 4)
    }

    #[tactic(auto, unfolding(crate::specs::GenfsRecord::path_at))]
    fn pass(c: &mut Cursor<'_>, _setting: &()) -> Result<(), Fault> {
        read_name(c, GENFS_PATHLEN, GENFS_PATH)?;
        read_class(c)?;
        read_context(c)?;
        Ok(())
    }
}

impl<'a> RecordView<'a> for GenfsPath {
    type View = GenfsPathView<'a>;

    ghost shown = { λ v. v };

    fn at(bytes: &'a [u8], place: u32) -> GenfsPathView<'a> {
        GenfsPathView { bytes, place }
    }
}

impl<'a> Copied<'a> for GenfsPath {
    fn rec(view: &Self::View, alloc: Global) -> Result<Self::Owned, AllocError> {
        view.rec(alloc)
    }
}

// Reads the value of a class.
#[tactic(auto, using(pol_cursor::proofs::Facts::number_is))]
fn read_class(c: &mut Cursor<'_>) -> Result<u32, Fault>
    ensures exact { Answers (λ class. class) result (number GENFS_CLASS 4) c.old c.new }
    ensures next { OnOk result (c.new.place ≡ c.old.place + 4) }
    ensures same { IfOk result (λ class. class ≡ num c.old.bytes c.old.place 4) }
{
    c.u32(GENFS_CLASS)
}
