// Files of the system, and a sink over any writer of std. The edge that is trusted.
ghost use Rattle.std.specs.Prelude.{◌≡◌, ◌<◌, None, Option, length, IfOk, OnOk, take, true, false, is_some, is_ok, ◌≤◌};
ghost use Rattle.std.specs.Io.KnownBytes.{Appends, ReadConsumes};
ghost use Rattle.se_outside.specs.Outside.{unasked, NoneAsked, Opens, OpensOne, Reads, ReadsOne, Writes};
ghost use Rattle.se_outside.specs.Plan.{FaultsOnErr};
ghost use Rattle.se_outside.specs.Real.{real_left, real_slot, real_state, slot_left};

use crate::counts::{counted, fault};
use crate::{Failed, Files, Sink, Slot};
use std::fs::OpenFile;
use std::io::{self, Read, Write};
use std::{fs, rt};

/// A slot's file.
#[derive(Drop)]
pub struct RealSlot<F: Read + Drop> {
    asked: bool,
    file: Option<F>,
    faults: u64,
    turns: u64,
}

impl<F: Read + Drop> RealSlot<F> {
    /// A slot that was asked for nothing.
    pub fn new() -> RealSlot<F>
        ensures { real_slot result ≡ unasked }
    {
        RealSlot {
            asked: false,
            file: None,
            faults: 0,
            turns: 0,
        }
    }

    /// Keeps the file, or counts the error.
    pub fn open(&mut self, opened: io::Result<F>) -> Result<(), Failed>
        ensures opens { (name : _) → OpensOne None (real_slot self.old) (real_slot self.new) name result }
        ensures opened { OnOk result (is_some self.new.file ≡ true) }
        ensures result { is_ok result ≡ is_ok opened }
        ensures faults { FaultsOnErr self.old.faults self.new.faults result }
    {
        self.asked = true;
        self.file = Some(counted(&mut self.faults, opened)?);
        Ok(())
    }

    /// Reads once from the file, or counts the error.
    pub fn read(&mut self, into: &mut [u8]) -> Result<usize, Failed>
        requires room { 0 < length into.old }
        requires opened { is_some self.old.file ≡ true }
        ensures reads { ReadsOne (real_slot self.old) (real_slot self.new) into.new result }
        ensures faults { FaultsOnErr self.old.faults self.new.faults result }
        // What a file that tells what it has left has given.
        ensures bytes { ReadConsumes (slot_left F.remaining self.old) (slot_left F.remaining self.new) result into.new }
    {
        self.turns = self.turns.saturating_add(1);
        let Some(file) = &mut self.file else {
            unreachable!()
        };
        counted(&mut self.faults, file.read(into))
    }
}

/// The system's files, with a count of faults for each slot. It tells no content and no name.
/// Each error of the system is a counted fault: a file that is not there or may not be opened at
/// `open`; a directory, which opens, and a device's error at `read`.
#[derive(Drop)]
pub struct RealFiles<'r, R: rt::Files> {
    runtime: &'r R,
    policy: RealSlot<R::File>,
    map: RealSlot<R::File>,
    list: RealSlot<R::File>,
}

impl<'r, R: rt::Files> RealFiles<'r, R> {
    /// No slot was asked yet.
    pub fn new(runtime: &'r R) -> RealFiles<'r, R>
        ensures asked { NoneAsked (real_state result) }
        ensures slots { (slot : _) → real_state result slot ≡ unasked }
    {
        RealFiles {
            runtime,
            policy: RealSlot::new(),
            map: RealSlot::new(),
            list: RealSlot::new(),
        }
    }
}

impl<'r, R: rt::Files> Files for RealFiles<'r, R> {
    ghost state = { real_state };

    ghost world = { λ _. None };

    /// Opens the file of that path.
    fn open(&mut self, slot: Slot, name: &str) -> Result<(), Failed>
        requires { (real_state self.old slot).asked ≡ false }
        ensures opens { Opens None (real_state self.old) (real_state self.new) slot name.now result }
        ensures faults { FaultsOnErr (real_state self.old slot).faults (real_state self.new slot).faults result }
    {
        let opened = fs::open(self.runtime, name);
        match slot {
            Slot::Policy => self.policy.open(opened),
            Slot::Map => self.map.open(opened),
            Slot::List => self.list.open(opened),
        }
    }

    /// Reads once from the file.
    fn read(&mut self, slot: Slot, into: &mut [u8]) -> Result<usize, Failed>
        requires opened { (real_state self.old slot).is_open ≡ true }
        requires room { 0 < length into.old }
        ensures reads { Reads (real_state self.old) (real_state self.new) slot into.new result }
        ensures faults { FaultsOnErr (real_state self.old slot).faults (real_state self.new slot).faults result }
        // What a file that tells what it has left has given.
        ensures bytes { ReadConsumes (real_left R.File.remaining self.old slot) (real_left R.File.remaining self.new slot)
            result into.new }
    {
        match slot {
            Slot::Policy => self.policy.read(into),
            Slot::Map => self.map.read(into),
            Slot::List => self.list.read(into),
        }
    }

    /// The length of the slot's file, as the system tells it.
    fn size_hint(&self, slot: Slot) -> u64 {
        match slot {
            Slot::Policy => length_told(&self.policy.file),
            Slot::Map => length_told(&self.map.file),
            Slot::List => length_told(&self.list.file),
        }
    }
}

// The length that the system tells of an open file, and 0 where it tells none.
fn length_told<F: OpenFile>(file: &Option<F>) -> u64 {
    let Some(file) = file else {
        return 0;
    };
    match file.metadata() {
        Ok(metadata) => metadata.len(),
        Err(_) => 0,
    }
}

/// A sink over any writer of std. It flushes at each write and tells no bytes. Each error of the
/// writer is a counted fault, and so is a write that takes nothing.
#[derive(Drop)]
pub struct RealSink<W: Write + Drop> {
    writer: W,
    faults: u64,
}

impl<W: Write + Drop> RealSink<W> {
    ghost use Rattle.se_outside.specs.Real.{real_sink};

    /// A sink with no fault yet.
    pub fn new(writer: W) -> RealSink<W>
        ensures { (real_sink result).faults ≡ 0 }
    {
        RealSink { writer, faults: 0 }
    }
}

impl<W: Write + Drop> Sink for RealSink<W> {
    ghost use Rattle.se_outside.specs.Real.{real_sink, real_writer};

    ghost state = { real_sink };

    /// Writes once, and flushes.
    fn write(&mut self, piece: &[u8]) -> Result<usize, Failed>
        requires { 0 < length piece.now }
        ensures writes { Writes (real_sink self.old) (real_sink self.new) piece.now result }
        ensures faults { FaultsOnErr (real_sink self.old).faults (real_sink self.new).faults result }
        // What a writer that tells its contents has gained.
        ensures bytes { IfOk result (λ k. Appends (W.contents (real_writer self.old))
            (W.contents (real_writer self.new)) (take k piece.now)) }
    {
        let count = counted(&mut self.faults, write_some(&mut self.writer, piece))?;
        if count == 0 {
            return Err(fault(&mut self.faults));
        }
        Ok(count)
    }
}

// Writes once, and flushes.
fn write_some<W: Write + Drop>(writer: &mut W, piece: &[u8]) -> io::Result<usize>
    ensures fits { IfOk result (λ k. k ≤ length piece.now) }
    ensures bytes { IfOk result (λ k. Appends (W.contents writer.old) (W.contents writer.new) (take k piece.now)) }
{
    let count = writer.write(piece)?;
    writer.flush()?;
    Ok(count)
}
