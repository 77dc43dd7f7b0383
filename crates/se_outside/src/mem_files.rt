// Files in memory, and calls that fail as it is told.
ghost use Rattle.std.specs.Prelude.{◌<◌};
ghost use Rattle.se_outside.specs.MemSlot.{IsPlaced};

use crate::mem_slot::{MemFile, MemSlot};
use crate::plan::Plan;
use crate::{Failed, Files, Slot};
use std::alloc::{AllocError, Global};

/// Files in memory, for tests. It tells what each name holds, the same for each slot, and the names
/// asked. Calls of `open` and `read` are counted from 1 over all slots; the count stands still at
/// the last value of a `u64`. Each error is a counted fault of its slot.
#[derive(Drop)]
pub struct MemFiles {
    alloc: Global,
    files: Vec<MemFile>,
    plan: Plan,
    policy: MemSlot,
    map: MemSlot,
    list: MemSlot,
    ghost policy_placed: { IsPlaced files.items policy },
    ghost map_placed: { IsPlaced files.items map },
    ghost list_placed: { IsPlaced files.items list },
}

impl MemFiles {
    ghost use Rattle.std.specs.Prelude.{◌≡◌, None, OnOk, OnErr};
    ghost use Rattle.se_outside.specs.Outside.{unasked, NoneAsked};
    ghost use Rattle.se_outside.specs.Plan.{no_orders, with_failing, with_most};
    ghost use Rattle.se_outside.specs.MemFiles.{mem_state, mem_world, mem_held, mem_orders, Adds};

    /// No file, and no call that fails.
    pub fn new(alloc: Global) -> MemFiles
        ensures asked { NoneAsked (mem_state result) }
        ensures slots { (slot : _) → mem_state result slot ≡ unasked }
        ensures empty { (name : _) → mem_held result name ≡ None }
        ensures orders { mem_orders result ≡ no_orders }
    {
        MemFiles {
            alloc,
            files: Vec::new(alloc),
            plan: Plan::new(alloc),
            policy: MemSlot::new(),
            map: MemSlot::new(),
            list: MemSlot::new(),
        }
    }

    /// Adds a file. A later one of the same name replaces the earlier one for each later `open`.
    /// After an error, of memory alone, all is as it was.
    pub fn add(&mut self, name: &str, bytes: &[u8]) -> Result<(), AllocError>
        ensures asked { NoneAsked (mem_state self.old) → NoneAsked (mem_state self.new) }
        ensures slots { (slot : _) → mem_state self.new slot ≡ mem_state self.old slot }
        ensures holds { OnOk result (Adds (mem_held self.old) (mem_held self.new) name.now bytes.now) }
        ensures err { OnErr result (mem_world self.new ≡ mem_world self.old) }
        ensures orders { mem_orders self.new ≡ mem_orders self.old }
    {
        let file = MemFile {
            name: String::from_str(self.alloc, name)?,
            bytes: Vec::from_slice(self.alloc, bytes)?,
        };
        Ok(self.files.push(file)?)
    }

    /// That call of `open` or `read` fails, counted from 1 over all slots. After an error, of memory
    /// alone, all is as it was.
    pub fn fail(&mut self, call: u64) -> Result<(), AllocError>
        ensures asked { NoneAsked (mem_state self.old) → NoneAsked (mem_state self.new) }
        ensures slots { (slot : _) → mem_state self.new slot ≡ mem_state self.old slot }
        ensures world { mem_world self.new ≡ mem_world self.old }
        ensures ok { OnOk result (mem_orders self.new ≡ with_failing (mem_orders self.old) call) }
        ensures err { OnErr result (mem_orders self.new ≡ mem_orders self.old) }
    {
        self.plan.fail(call)
    }

    /// A read gives at most `n` bytes from now on.
    pub fn most(&mut self, n: usize)
        requires { 0 < n }
        ensures asked { NoneAsked (mem_state self.old) → NoneAsked (mem_state self.new) }
        ensures slots { (slot : _) → mem_state self.new slot ≡ mem_state self.old slot }
        ensures world { mem_world self.new ≡ mem_world self.old }
        ensures orders { mem_orders self.new ≡ with_most (mem_orders self.old) n }
    {
        self.plan.set_most(n);
    }
}

impl Files for MemFiles {
    ghost use Rattle.std.specs.Prelude.{◌≡◌, ◌↔◌, ◌⊎◌, true, false, None, IsErr, length};
    ghost use Rattle.se_outside.specs.Outside.{Opens, Reads};
    ghost use Rattle.se_outside.specs.Plan.{Called, IsDue, FaultsOnErr, GivesAll};
    ghost use Rattle.se_outside.specs.MemFiles.{mem_state, mem_world, mem_held, mem_orders};

    ghost state = { mem_state };

    ghost world = { mem_world };

    /// Fails where the call is told to fail or the name is not there, and nowhere else.
    fn open(&mut self, slot: Slot, name: &str) -> Result<(), Failed>
        requires { (mem_state self.old slot).asked ≡ false }
        ensures opens { Opens (mem_world self.old) (mem_state self.old) (mem_state self.new) slot name.now result }
        ensures world { mem_world self.new ≡ mem_world self.old }
        ensures called { Called (mem_orders self.old) (mem_orders self.new) }
        ensures fails { IsErr result ↔ (IsDue (mem_orders self.new) ⊎ (mem_held self.old name.now ≡ None)) }
        ensures faults { FaultsOnErr (mem_state self.old slot).faults (mem_state self.new slot).faults result }
    {
        let fails = self.plan.next_fails();
        match slot {
            Slot::Policy => self.policy.open(&self.files, name, fails),
            Slot::Map => self.map.open(&self.files, name, fails),
            Slot::List => self.list.open(&self.files, name, fails),
        }
    }

    /// Fails where the call is told to fail, and nowhere else.
    fn read(&mut self, slot: Slot, into: &mut [u8]) -> Result<usize, Failed>
        requires opened { (mem_state self.old slot).is_open ≡ true }
        requires room { 0 < length into.old }
        ensures reads { Reads (mem_state self.old) (mem_state self.new) slot into.new result }
        ensures world { mem_world self.new ≡ mem_world self.old }
        ensures called { Called (mem_orders self.old) (mem_orders self.new) }
        ensures fails { IsErr result ↔ IsDue (mem_orders self.new) }
        ensures faults { FaultsOnErr (mem_state self.old slot).faults (mem_state self.new slot).faults result }
        ensures amount { GivesAll (mem_state self.old slot).left (length into.old) (mem_orders self.old).most result }
    {
        let fails = self.plan.next_fails();
        let most = self.plan.most();
        match slot {
            Slot::Policy => self.policy.read(&self.files, into, most, fails),
            Slot::Map => self.map.read(&self.files, into, most, fails),
            Slot::List => self.list.read(&self.files, into, most, fails),
        }
    }
}
