// One slot of files in memory.
ghost use Rattle.std.specs.Prelude.{◌<◌, ◌≡◌, ◌↔◌, ◌⊎◌, length, true, Some, None, take, drop, min, [], ◌≤◌, ◌+◌, ◌^◌, IsTrue, IsErr};
ghost use Rattle.se_outside.specs.Outside.{OpensOne, ReadsOne, unasked};

use crate::Failed;
use crate::counts::fault;

/// A name and what it holds.
#[derive(Drop)]
pub struct MemFile {
    pub name: String,
    pub bytes: Vec<u8>,
}

/// What became of a slot. A file is an index into the files.
#[derive(Clone, Copy)]
pub enum Place {
    Unasked,
    NotThere,
    // there, but the call was told to fail
    Refused(usize),
    // the file, and how many of its bytes were read
    Open(usize, usize),
}

/// One slot, with its counts.
#[derive(Drop)]
pub struct MemSlot {
    pub place: Place,
    pub faults: u64,
    pub turns: u64,
}

impl MemSlot {
    ghost use Rattle.se_outside.specs.MemSlot.{slot_state, held, IsPlaced};
    ghost use Rattle.se_outside.specs.Plan.{FaultsOnErr, GivesAll};

    /// A slot that was asked for nothing.
    pub fn new() -> MemSlot
        ensures state { (files : _) → slot_state files result ≡ unasked }
        ensures placed { (files : _) → IsPlaced files result }
    {
        MemSlot {
            place: Place::Unasked,
            faults: 0,
            turns: 0,
        }
    }

    /// Opens the last file of that name, unless the call is told to fail.
    pub fn open(&mut self, files: &[MemFile], name: &str, fails: bool) -> Result<(), Failed>
        ensures opens { OpensOne (Some (held files.now name.now)) (slot_state files.now self.old)
            (slot_state files.now self.new) name.now result }
        ensures placed { IsPlaced files.now self.new }
        ensures fails { IsErr result ↔ (IsTrue fails ⊎ (held files.now name.now ≡ None)) }
        ensures faults { FaultsOnErr self.old.faults self.new.faults result }
    {
        let Some(index) = find(files, name) else {
            self.place = Place::NotThere;
            return Err(fault(&mut self.faults));
        };
        if fails {
            self.place = Place::Refused(index);
            return Err(fault(&mut self.faults));
        }
        self.place = Place::Open(index, 0);
        Ok(())
    }

    /// Reads at most `most` bytes, unless the call is told to fail.
    pub fn read(
        &mut self,
        files: &[MemFile],
        into: &mut [u8],
        most: usize,
        fails: bool,
    ) -> Result<usize, Failed>
        requires most { 0 < most }
        requires room { 0 < length into.old }
        requires opened { (slot_state files.now self.old).is_open ≡ true }
        requires placed { IsPlaced files.now self.old }
        ensures reads { ReadsOne (slot_state files.now self.old) (slot_state files.now self.new) into.new result }
        ensures placed { IsPlaced files.now self.new }
        ensures fails { IsErr result ↔ IsTrue fails }
        ensures faults { FaultsOnErr self.old.faults self.new.faults result }
        ensures amount { GivesAll (slot_state files.now self.old).left (length into.old) most result }
    {
        self.turns = self.turns.saturating_add(1);
        if fails {
            return Err(fault(&mut self.faults));
        }
        let Place::Open(index, at) = self.place else {
            unreachable!()
        };
        let taken = copy_some(&files[index].bytes, at, into, most);
        self.place = Place::Open(index, at + taken);
        Ok(taken)
    }
}

ghost use Rattle.se_outside.specs.MemSlot.{IsFound};

// The index of the last file of that name.
fn find(files: &[MemFile], name: &str) -> Option<usize>
    ensures { IsFound files.now name.now result }
{
    let mut found = None;
    for (i, file) in files.iter().enumerate() {
        if file.name.as_str() == name {
            found = Some(i);
        }
    }
    found
}

// Copies at most `most` bytes from `at` on, as many as there are and as have room.
fn copy_some(bytes: &[u8], at: usize, into: &mut [u8], most: usize) -> usize
    requires most { 0 < most }
    requires room { 0 < length into.old }
    ensures amount { result ≡ min (min (length (drop at bytes.now)) (length into.old)) most }
    ensures front { take result into.new ≡ take result (drop at bytes.now) }
    ensures fits { result ≤ length into.new }
    ensures within { result ≤ length (drop at bytes.now) }
    ensures sum { at + result < 2 ^ 64 }
    ensures end { result ≡ 0 → drop at bytes.now ≡ [] }
{
    if at >= bytes.len() {
        return 0;
    }
    let left = &bytes[at..];
    let taken = left.len().min(into.len()).min(most);
    into[..taken].copy_from_slice(&left[..taken]);
    taken
}
