//! A file system of genfs in the buffer: the view, and the kind that the list is made of.

ghost use Rattle.std.specs.Prelude.{◌≡◌, ◌<◌, IfOk, Some, option_map, slice_get, length};
ghost use Rattle.std.specs.List.{flat_map};
ghost use Rattle.pol_cursor.specs.References.{dangling_of, values_of};
ghost use Rattle.pol_genfs.specs.GenfsRecord.{genfs_in, HasGenfs, paths_of, context_of_path, path_references, genfs_references};

use crate::genfs_path_view::GenfsPath;
use crate::genfs_rec::GenfsRec;
use pol_cursor::{
    ByteList, Copied, Names, NestedRecords, Record, RecordView, Referring, name_end, name_standing,
    u32_in,
};
use pol_fields::Fault;
use pol_mls::ContextView;
use std::alloc::{AllocError, Global};
use std::marker::Model;

/// A file system that has no labels of its own, with the contexts of its files, in the buffer.
#[derive(Drop)]
pub struct GenfsView<'a> {
    bytes: &'a [u8],
    place: u32,
}

impl<'a> Model for GenfsView<'a> {
    ghost use Rattle.pol_cursor.specs.References.{Placed};
    ghost use Rattle.pol_genfs.specs.declared.genfs_rec.GenfsRec.{GenfsRec};
    ghost use Rattle.pol_genfs.specs.GenfsRecord.{genfs_in, HasGenfs};

    ghost Value = { Placed GenfsRec };

    ghost view = { λ v. record { place = v.place; value = genfs_in v.bytes.now v.place } };

    ghost invariant = { λ v. HasGenfs v.bytes.now v.place };
}

impl<'a> GenfsView<'a> {
    /// The name of the file system.
    pub fn fstype(&self) -> &'a [u8]
        ensures { result.now ≡ self.now.value.fstype }
    {
        name_standing(self.bytes, self.place)
    }

    /// Its paths, in file order.
    #[tactic(auto, using(crate::proofs::Places::paths_placed, pol_cursor::proofs::Facts::length_part))]
    pub fn paths(&self) -> NestedRecords<'a, GenfsPath>
        ensures placed { result ≡ paths_of self.now }
        ensures values { values_of result ≡ self.now.value.paths }
    {
        let place = name_end(self.bytes, self.place);
        NestedRecords::at(self.bytes, place + 4, u32_in(self.bytes, place as usize))
    }

    /// The number of paths.
    pub fn npaths(&self) -> u32
        ensures { result ≡ length self.now.value.paths }
    {
        self.paths().len()
    }

    /// The path of that number, from 0 on. It goes through the paths before.
    pub fn path(&self, i: u32) -> &'a [u8]
        requires { i < length self.now.value.paths }
        ensures { option_map (λ entry. entry.path) (slice_get self.now.value.paths i) ≡ Some result.now }
    {
        self.paths().view(i).path()
    }

    /// The value of the class of the files at the path of that number, and 0 where it is any. It goes through the paths
    /// before.
    pub fn class(&self, i: u32) -> u32
        requires { i < length self.now.value.paths }
        ensures { option_map (λ entry. entry.class) (slice_get self.now.value.paths i) ≡ Some result }
    {
        self.paths().view(i).class()
    }

    /// The context of the files at the path of that number. It goes through the paths before.
    pub fn context(&self, i: u32) -> ContextView<'a>
        requires { i < length self.now.value.paths }
        ensures { option_map context_of_path (slice_get (paths_of self.now) i) ≡ Some result }
    {
        self.paths().view(i).context()
    }

    /// The first reference, in file order, whose value no primary record declares, as a fault at its field.
    pub fn dangling<N: Names>(&self, names: &N) -> Option<Fault>
        ensures { result ≡ dangling_of (N.named names.now) (genfs_references self.now) }
    {
        dangling_path(self.paths(), names)
    }

    /// The file system, owned.
    pub fn rec(&self, alloc: Global) -> Result<GenfsRec, AllocError>
        ensures { IfOk result (λ entry. entry ≡ self.now.value) }
    {
        Ok(GenfsRec {
            fstype: ByteList::copy_of(alloc, self.fstype())?,
            paths: self.paths().rec(alloc)?,
        })
    }
}

// The first reference of paths whose value no primary record declares, as a fault at its field.
#[tactic(auto, using(pol_cursor::proofs::DanglingLists::dangling_none, pol_cursor::proofs::DanglingLists::undeclared_first))]
fn dangling_path<N: Names>(run: NestedRecords<'_, GenfsPath>, names: &N) -> Option<Fault>
    ensures { result ≡ dangling_of (N.named names.now) (flat_map path_references run.entry) }
{
    for path in run {
        match path.dangling(names) {
            Some(fault) => return Some(fault),
            None => {}
        }
    }
    None
}

/// The kind of these file systems.
#[derive(Drop)]
pub struct Genfs;

impl Record for Genfs {
    type Owned = GenfsRec;

    ghost standing = { genfs_in };

    ghost has = { HasGenfs };
}

impl<'a> RecordView<'a> for Genfs {
    type View = GenfsView<'a>;

    ghost shown = { λ v. v };

    fn at(bytes: &'a [u8], place: u32) -> GenfsView<'a> {
        GenfsView { bytes, place }
    }
}

impl<'a> Copied<'a> for Genfs {
    fn rec(view: &Self::View, alloc: Global) -> Result<Self::Owned, AllocError> {
        view.rec(alloc)
    }
}

impl<'a> Referring<'a> for Genfs {
    ghost references = { genfs_references };

    fn dangling<N: Names>(view: &Self::View, names: &N) -> Option<Fault> {
        view.dangling(names)
    }
}
