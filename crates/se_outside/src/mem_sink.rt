// A sink in memory, with a room, and writes that fail as it is told.
ghost use Rattle.std.specs.Prelude.{◌<◌, ◌≤◌, length, vec_capacity};

use crate::counts::fault;
use crate::plan::Plan;
use crate::{Failed, Sink};
use std::alloc::{AllocError, Global};

/// A sink in memory with a fixed room, for tests. It tells the bytes written. Writes are counted
/// from 1; the count stands still at the last value of a `u64`. Each error is a counted fault.
#[derive(Drop)]
pub struct MemSink {
    bytes: Vec<u8>,
    room: usize,
    plan: Plan,
    faults: u64,
    ghost fits: { length bytes.items ≤ room },
    ghost reserved: { room ≤ vec_capacity bytes },
}

impl MemSink {
    ghost use Rattle.std.specs.Prelude.{◌≡◌, IfOk, OnOk, OnErr};
    ghost use Rattle.se_outside.specs.MemSink.{mem_sink, new_sink, with_orders};
    ghost use Rattle.se_outside.specs.Plan.{with_failing, with_most};

    /// A sink that holds nothing yet, and at most `room` bytes. It takes that memory at once.
    pub fn new(alloc: Global, room: usize) -> Result<MemSink, AllocError>
        ensures { IfOk result (λ s. mem_sink s ≡ new_sink room) }
    {
        Ok(MemSink {
            bytes: Vec::with_capacity(alloc, room)?,
            room,
            plan: Plan::new(alloc),
            faults: 0,
        })
    }

    /// That write fails, counted from 1. After an error, of memory alone, all is as it was.
    pub fn fail(&mut self, call: u64) -> Result<(), AllocError>
        ensures ok { OnOk result (mem_sink self.new
            ≡ with_orders (mem_sink self.old) (with_failing (mem_sink self.old).orders call)) }
        ensures err { OnErr result (mem_sink self.new ≡ mem_sink self.old) }
    {
        self.plan.fail(call)
    }

    /// A write takes at most `n` bytes from now on.
    pub fn most(&mut self, n: usize)
        requires { 0 < n }
        ensures { mem_sink self.new
            ≡ with_orders (mem_sink self.old) (with_most (mem_sink self.old).orders n) }
    {
        self.plan.set_most(n);
    }

    /// The bytes that were written.
    pub fn bytes(&self) -> &[u8]
        ensures { result.now ≡ (mem_sink self.now).bytes }
    {
        &self.bytes
    }
}

impl Sink for MemSink {
    ghost use Rattle.std.specs.Prelude.{◌≡◌, ◌↔◌, ◌⊎◌, IsErr, IfOk};
    ghost use Rattle.se_outside.specs.Outside.{Writes};
    ghost use Rattle.se_outside.specs.Plan.{Called, IsDue, FaultsOnErr};
    ghost use Rattle.se_outside.specs.MemSink.{mem_sink, told_sink, IsFull, taken_of};

    ghost state = { λ s. told_sink (mem_sink s) };

    /// Fails where the write is told to fail or no room is left, and nowhere else. It takes no memory.
    fn write(&mut self, piece: &[u8]) -> Result<usize, Failed>
        requires { 0 < length piece.now }
        ensures writes { Writes (told_sink (mem_sink self.old)) (told_sink (mem_sink self.new)) piece.now result }
        ensures room { (mem_sink self.new).room ≡ (mem_sink self.old).room }
        ensures called { Called (mem_sink self.old).orders (mem_sink self.new).orders }
        ensures fails { IsErr result ↔ (IsDue (mem_sink self.new).orders ⊎ IsFull (mem_sink self.old)) }
        ensures faults { FaultsOnErr (mem_sink self.old).faults (mem_sink self.new).faults result }
        ensures amount { IfOk result (λ k. k ≡ taken_of (mem_sink self.old) piece.now) }
    {
        let fails = self.plan.next_fails();
        let left = self.room - self.bytes.len();
        if left == 0 || fails {
            return Err(fault(&mut self.faults));
        }
        let taken = piece.len().min(left).min(self.plan.most());
        let Ok(()) = self.bytes.extend_from_slice(&piece[..taken]) else {
            unreachable!()
        };
        Ok(taken)
    }
}
