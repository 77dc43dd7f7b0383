// The paths of the file systems without labels, as one list.
ghost use Rattle.std.specs.Prelude.{◌≡◌, ◌++◌, IfOk, OnOk, option_map};
ghost use Rattle.info_contexts.specs.GenfsLines.{entries_of, entries_in};
ghost use Rattle.info_contexts.specs.NamedEntries.{is_asked, of_name};

use pol_genfs::{GenfsList, GenfsPathView, GenfsView};
use pol_mls::ContextView;
use std::alloc::{AllocError, Global};
use std::marker::Model;

/// A path of a file system, with the file system's name.
#[derive(Drop)]
pub struct GenfsEntry<'a> {
    fstype: &'a [u8],
    path: GenfsPathView<'a>,
}

impl<'a> Model for GenfsEntry<'a> {
    ghost use Rattle.info_contexts.specs.GenfsLines.{Entry};

    ghost Value = { Entry };

    ghost view = { λ e. record { fstype = e.fstype.now; path = e.path.value } };
}

impl<'a> GenfsEntry<'a> {
    /// The name of the file system.
    pub fn fstype(&self) -> &'a [u8]
        ensures { result.now ≡ self.now.fstype }
    {
        self.fstype
    }

    /// The path.
    pub fn path(&self) -> &'a [u8]
        ensures { result.now ≡ self.now.path.path }
    {
        self.path.path()
    }

    /// The value of the class of the files there, and 0 where it is any.
    pub fn class(&self) -> u32
        ensures { result ≡ self.now.path.class }
    {
        self.path.class()
    }

    /// Their context.
    pub fn context(&self) -> ContextView<'a>
        ensures { result.value ≡ self.now.path.context }
    {
        self.path.context()
    }
}

/// The paths of the file systems of the name, or of all where none is given, in file order.
pub fn genfs_entries<'a>(
    alloc: Global,
    systems: &GenfsList<'a>,
    name: Option<&[u8]>,
) -> Result<Vec<GenfsEntry<'a>>, AllocError>
    ensures { IfOk result (λ entries. entries.items ≡ of_name (λ entry. entry.fstype) (option_map (λ name. name.now) name.entry) (entries_in systems.now)) }
{
    let mut entries = Vec::new(alloc);
    for i in 0..systems.len() {
        push_asked(&mut entries, &systems.view(i), name)?;
    }
    Ok(entries)
}

// Appends the paths of a file system, if it is asked for.
fn push_asked<'a>(
    entries: &mut Vec<GenfsEntry<'a>>,
    system: &GenfsView<'a>,
    name: Option<&[u8]>,
) -> Result<(), AllocError>
    ensures { OnOk result (entries.new.items ≡ entries.old.items ++ of_name (λ entry. entry.fstype) (option_map (λ name. name.now) name.entry) (entries_of system.now.value)) }
{
    if is_asked(name, system.fstype()) {
        push_entries(entries, system)?;
    }
    Ok(())
}

// Whether a file system of that name is asked for.
fn is_asked(name: Option<&[u8]>, fstype: &[u8]) -> bool
    ensures { result ≡ is_asked (option_map (λ name. name.now) name.entry) fstype.now }
{
    match name {
        Some(name) => fstype == name,
        None => true,
    }
}

// Appends the paths of a file system.
fn push_entries<'a>(
    entries: &mut Vec<GenfsEntry<'a>>,
    system: &GenfsView<'a>,
) -> Result<(), AllocError>
    ensures { OnOk result (entries.new.items ≡ entries.old.items ++ entries_of system.now.value) }
{
    let fstype = system.fstype();
    for path in system.paths() {
        entries.push(GenfsEntry { fstype, path })?;
    }
    Ok(())
}
