// Values with a mark for each, in the order in which they came.
ghost use Rattle.std.specs.Prelude.{◌≡◌, ◌<◌, ◌≤◌, [], IfOk, OnOk, OnErr};
ghost use Rattle.std.specs.List.{All};
ghost use Rattle.value_groups.specs.Among.{is_among};
ghost use Rattle.value_groups.specs.Inner.Marking.{with_value, AreApart};

use crate::dense_set::DenseSet;
use std::alloc::{AllocError, Global};
use std::marker::Model;

/// Values below a count, each once, in the order in which they were added. A mark for each value tells whether it is there.
#[derive(Drop)]
pub struct Marked {
    marks: DenseSet,
    values: Vec<u32>,
}

impl Model for Marked {
    ghost use Rattle.value_groups.specs.Inner.Marking.{MarkedValues, AreMarked};

    ghost Value = { MarkedValues };

    ghost view = { λ m. record { count = m.marks.count; values = m.values.items } };

    ghost invariant = { λ m. AreMarked m.marks m.values.items };
}

impl Marked {
    /// None yet, of the values below a count.
    pub fn new(alloc: Global, count: usize) -> Result<Marked, AllocError>
        requires some { 1 ≤ count }
        requires few { count ≤ 65536 }
        ensures { IfOk result (λ m. m ≡ record { count = count; values = [] }) }
    {
        Ok(Marked {
            marks: DenseSet::new(alloc, count)?,
            values: Vec::new(alloc),
        })
    }

    /// Adds a value, unless it is there.
    pub fn add(&mut self, value: u32) -> Result<(), AllocError>
        requires { value < self.old.count }
        ensures added { OnOk result (self.new ≡ record self.old { values = with_value self.old.values value }) }
        ensures err { OnErr result (self.new ≡ self.old) }
    {
        if self.marks.has(value) {
            return Ok(());
        }
        self.values.push(value)?;
        self.marks.add(value);
        Ok(())
    }

    /// Whether a value is there.
    pub fn has(&self, value: u32) -> bool
        ensures { result ≡ is_among self.now.values value }
    {
        self.marks.has(value)
    }

    /// The values.
    pub fn values(&self) -> &[u32]
        ensures values { result.now ≡ self.now.values }
        ensures apart { AreApart self.now.values }
        ensures within { All (λ value. value < self.now.count) self.now.values }
    {
        &self.values
    }
}
