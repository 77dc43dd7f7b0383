// Files and a sink that never fail.
ghost use Rattle.std.specs.Prelude.{◌≡◌, ◌<◌, Some, IsOk, IfOk, Ok, length, min, ◌+◌, ◌-◌, ◌^◌, true, false};
ghost use Rattle.se_outside.specs.Outside.{NoneAsked, Opens, OpensOne, Reads, ReadsOne, Writes};
ghost use Rattle.se_outside.specs.Sure.{sure_slot, sure_sink, sure_state, sure_world, sure_count, holding};

use crate::{Failed, Files, Sink, Slot};

/// A slot with its file, and what is left of it.
#[derive(Drop)]
pub struct SureSlot<'a> {
    bytes: &'a [u8],
    rest: &'a [u8],
    asked: bool,
    turns: u64,
}

impl<'a> SureSlot<'a> {
    // A slot that was asked for nothing.
    fn new(bytes: &'a [u8]) -> SureSlot<'a>
        ensures bytes { result.bytes.now ≡ bytes.now }
        ensures asked { result.asked ≡ false }
        ensures turns { result.turns ≡ 0 }
    {
        SureSlot {
            bytes,
            rest: bytes,
            asked: false,
            turns: 0,
        }
    }

    // Opens the slot's bytes.
    fn open(&mut self)
        ensures { self.new ≡ record self.old { rest = self.old.bytes; asked = true } }
    {
        self.rest = self.bytes;
        self.asked = true;
    }

    // Reads as much as is left and has room.
    fn read(&mut self, into: &mut [u8]) -> Result<usize, Failed>
        requires room { 0 < length into.old }
        requires opened { self.old.asked ≡ true }
        ensures reads { ReadsOne (sure_slot self.old) (sure_slot self.new) into.new result }
        ensures bytes { self.new.bytes ≡ self.old.bytes }
        ensures amount { IfOk result (λ k. k ≡ min (length self.old.rest.now) (length into.old)) }
        ensures never_fails { IsOk result }
    {
        self.turns = self.turns.saturating_add(1);
        let taken = self.rest.len().min(into.len());
        let (front, rest) = self.rest.split_at(taken);
        into[..taken].copy_from_slice(front);
        self.rest = rest;
        Ok(taken)
    }
}

/// Files that never fail: every name opens the slot's bytes. Their counts of faults are the
/// constant 0.
#[derive(Drop)]
pub struct SureFiles<'a> {
    policy: SureSlot<'a>,
    map: SureSlot<'a>,
    list: SureSlot<'a>,
}

impl<'a> SureFiles<'a> {
    /// The bytes of the policy, and those of the permission map, which are the checklist's too. No slot was asked yet.
    pub fn new(policy: &'a [u8], map: &'a [u8]) -> SureFiles<'a>
        ensures asked { NoneAsked (sure_state result) }
        ensures turns { (slot : _) → (sure_state result slot).turns ≡ 0 }
        ensures world { sure_world result ≡ holding policy.now map.now map.now }
    {
        SureFiles {
            policy: SureSlot::new(policy),
            map: SureSlot::new(map),
            list: SureSlot::new(map),
        }
    }
}

impl<'a> Files for SureFiles<'a> {
    ghost state = { sure_state };

    ghost world = { sure_world };

    /// Opens the slot's bytes, whatever the name.
    fn open(&mut self, slot: Slot, _name: &str) -> Result<(), Failed>
        requires { (sure_state self.old slot).asked ≡ false }
        ensures opens { Opens (sure_world self.old) (sure_state self.old) (sure_state self.new) slot _name.now result }
        ensures world { sure_world self.new ≡ sure_world self.old }
        ensures never_fails { IsOk result }
    {
        match slot {
            Slot::Policy => self.policy.open(),
            Slot::Map => self.map.open(),
            Slot::List => self.list.open(),
        }
        Ok(())
    }

    /// Reads as much as is left and has room.
    fn read(&mut self, slot: Slot, into: &mut [u8]) -> Result<usize, Failed>
        requires opened { (sure_state self.old slot).is_open ≡ true }
        requires room { 0 < length into.old }
        ensures reads { Reads (sure_state self.old) (sure_state self.new) slot into.new result }
        ensures world { sure_world self.new ≡ sure_world self.old }
        ensures never_fails { IsOk result }
    {
        match slot {
            Slot::Policy => self.policy.read(into),
            Slot::Map => self.map.read(into),
            Slot::List => self.list.read(into),
        }
    }
}

/// A sink that takes each piece whole and keeps the number of bytes only, which stands still at the
/// last value of a `u64`. It tells no bytes, and its count of faults is the constant 0.
#[derive(Drop)]
pub struct SureSink {
    count: u64,
}

impl SureSink {
    /// A sink that was given nothing yet.
    pub fn new() -> SureSink
        ensures { sure_count result ≡ 0 }
    {
        SureSink { count: 0 }
    }
}

impl Sink for SureSink {
    ghost state = { λ _. sure_sink };

    /// Takes the whole piece.
    fn write(&mut self, piece: &[u8]) -> Result<usize, Failed>
        requires { 0 < length piece.now }
        ensures writes { Writes sure_sink sure_sink piece.now result }
        ensures whole { result ≡ Ok (length piece.now) }
        ensures count { sure_count self.new ≡ min (sure_count self.old + length piece.now) (2 ^ 64 - 1) }
    {
        self.count = self.count.saturating_add(piece.len() as u64);
        Ok(piece.len())
    }
}
