// The places of a list, grouped by value.
ghost use Rattle.std.specs.Prelude.{◌≡◌, ◌<◌, ◌≤◌, ◌^◌, IfOk, length};
ghost use Rattle.std.specs.List.{All};
ghost use Rattle.value_groups.specs.Inner.Grouping.{group_of, AreGroupsOf};

use crate::counting::{places_by_value, starts_of};
use std::alloc::{AllocError, Global};
use std::marker::Model;

/// The places of a list of values, grouped by value. Contracts see the places of each value, by value from 0 on.
pub struct Groups {
    // By value: where its places begin, which is where those of the value before it end.
    starts: Vec<usize>,
    places: Vec<u32>,
}

// Its parts go in one call, wherever it is dropped.
impl Drop for Groups {
    fn drop(self) {
        let Groups { starts, places } = self;
    }
}

impl Model for Groups {
    ghost use Rattle.std.specs.Prelude.{ℕ, List};
    ghost use Rattle.value_groups.specs.Inner.Grouping.{groups_in, AreSteps};

    ghost Value = { List (List ℕ) };

    ghost view = { λ g. groups_in g.starts.items g.places.items };

    ghost invariant = { λ g. AreSteps g.starts.items g.places.items };
}

impl Groups {
    /// Groups the places of a list, in two passes over it.
    pub fn of_values(alloc: Global, values: &[u32], most: u32) -> Result<Groups, AllocError>
        requires few { length values.now < 2 ^ 32 }
        requires small { most ≤ 65535 }
        requires within { All (λ value. value ≤ most) values.now }
        ensures { IfOk result (λ groups. AreGroupsOf most values.now groups) }
    {
        let starts = starts_of(alloc, values, most)?;
        let places = places_by_value(alloc, values, most, &starts)?;
        Ok(Groups { starts, places })
    }

    /// The places of a value, rising. There is none of a value above the most.
    pub fn places(&self, value: u32) -> &[u32]
        ensures { result.now ≡ group_of self.now value }
    {
        let place = value as usize;
        if place + 1 >= self.starts.len() {
            return &[];
        }
        let start = self.starts[place];
        let end = self.starts[place + 1];
        &self.places[start..end]
    }
}
