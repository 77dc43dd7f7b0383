// What an object in memory is told to do.
ghost use Rattle.std.specs.Prelude.{◌≡◌, ◌↔◌, ◌<◌, OnOk, OnErr, IsTrue};

use std::alloc::{AllocError, Global};

/// Which calls fail, counted from 1, and how many bytes one call moves at most.
#[derive(Drop)]
pub struct Plan {
    failing: Vec<u64>,
    calls: u64,
    most: usize,
    ghost takes: { 0 < most },
}

impl Plan {
    ghost use Rattle.se_outside.specs.Plan.{orders, no_orders, with_failing, with_most, IsDue, Called};

    /// No call fails, and a call moves any number of bytes.
    pub fn new(alloc: Global) -> Plan
        ensures { orders result ≡ no_orders }
    {
        Plan {
            failing: Vec::new(alloc),
            calls: 0,
            most: usize::MAX,
        }
    }

    /// That call fails.
    pub fn fail(&mut self, call: u64) -> Result<(), AllocError>
        ensures ok { OnOk result (orders self.new ≡ with_failing (orders self.old) call) }
        ensures err { OnErr result (orders self.new ≡ orders self.old) }
    {
        Ok(self.failing.push(call)?)
    }

    /// A call moves at most that many bytes from now on.
    pub fn set_most(&mut self, n: usize)
        requires { 0 < n }
        ensures { orders self.new ≡ with_most (orders self.old) n }
    {
        self.most = n;
    }

    /// How many bytes a call moves at most.
    pub fn most(&self) -> usize
        ensures value { result ≡ (orders self.now).most }
        ensures some { 0 < result }
    {
        self.most
    }

    /// Counts a call, and answers whether it fails.
    pub fn next_fails(&mut self) -> bool
        ensures called { Called (orders self.old) (orders self.new) }
        ensures due { IsTrue result ↔ IsDue (orders self.new) }
    {
        self.calls = self.calls.saturating_add(1);
        self.failing.contains(&self.calls)
    }
}
