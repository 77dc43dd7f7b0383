// Running sums.
ghost use Rattle.std.specs.Prelude.{◌≡◌, ◌<◌, ◌≤◌, ◌+◌, ◌++◌, ◌∷◌, [], IfOk, OnOk, OnErr, length, sum, take, slice_index};

use std::alloc::{AllocError, Global};
use std::marker::Model;

/// Lists that are put one behind the other, by where each of them ends. They have at most 400,000,000 items together. Beside
/// that stands the list of each 64th item, so that the list of any item is looked for among few. Contracts see the list of their
/// lengths.
pub struct Sums {
    ends: Vec<u32>,
    // The numbers of the lists in which the items 0, 64, 128 and so on stand.
    firsts: Vec<u32>,
}

// Its parts go in one call, wherever it is dropped.
impl Drop for Sums {
    fn drop(self) {
        let Sums { ends, firsts } = self;
    }
}

impl Model for Sums {
    ghost use Rattle.std.specs.Prelude.{ℕ, ◌≤◌, List, length};
    ghost use Rattle.pol_read.specs.Inner.RunningSums.{lengths_between, AreEnds, AreFirsts};

    ghost Value = { List ℕ };

    ghost view = { λ s. lengths_between 0 s.ends.items };

    ghost invariant = { λ s. AreEnds 0 s.ends.items × (length s.ends.items ≤ 4294967295) × AreFirsts (lengths_between 0 s.ends.items) s.firsts.items };
}

impl Sums {
    /// No list.
    #[tactic(auto, using(crate::proofs::FirstLists::no_firsts), unfolding(crate::specs::Inner::RunningSums::lengths_between, crate::specs::Inner::RunningSums::AreEnds))]
    pub fn new(alloc: Global) -> Sums
        ensures { result ≡ [] }
    {
        Sums {
            ends: Vec::new(alloc),
            firsts: Vec::new(alloc),
        }
    }

    /// Lists of these lengths.
    #[tactic(auto, using(crate::proofs::EndLists::within_sum))]
    pub fn of(alloc: Global, lengths: &[u32]) -> Result<Sums, AllocError>
        requires limit { sum lengths.now ≤ 400000000 }
        requires few { length lengths.now ≤ 4294967295 }
        ensures { IfOk result (λ sums. sums ≡ lengths.now) }
    {
        let mut sums = Sums::new(alloc);
        for length in lengths {
            sums.push(*length)?;
        }
        Ok(sums)
    }

    /// How long the lists are together.
    #[tactic(auto, using(crate::proofs::EndLists::all_of_them, crate::proofs::EndLists::length_between))]
    pub fn total(&self) -> u32
        ensures is { result ≡ sum self.now }
        ensures limited { result ≤ 400000000 }
    {
        self.start(self.ends.len() as u32)
    }

    /// Adds a list behind the others.
    #[tactic(auto, using(crate::proofs::EndLists::between_push, crate::proofs::EndLists::ends_push, crate::proofs::EndLists::length_between, crate::proofs::FirstLists::firsts_push))]
    pub fn push(&mut self, len: u32) -> Result<(), AllocError>
        requires limit { sum self.old + len ≤ 400000000 }
        requires few { length self.old < 4294967295 }
        ensures ok { OnOk result (self.new ≡ self.old ++ len ∷ []) }
        ensures err { OnErr result (self.new ≡ self.old) }
    {
        let list = self.ends.len() as u32;
        let end = self.total() + len;
        // There is room for the end before the firsts grow, so that without memory nothing changes.
        self.ends.reserve(1)?;
        self.firsts.resize(end.div_ceil(64) as usize, list)?;
        self.ends.push_reserved(end);
        Ok(())
    }

    /// The number of the list in which the item of a number stands, and the item's number in that list, all from 0 on.
    #[tactic(auto, using(crate::proofs::EndLists::one_left, crate::proofs::FirstLists::apart))]
    pub fn find(&self, n: u32) -> (u32, u32)
        requires { n < sum self.now }
        ensures list { result.0 < length self.now }
        ensures item { result.1 < slice_index self.now result.0 }
        ensures place { sum (take result.0 self.now) + result.1 ≡ n }
    {
        let (mut low, mut high) = self.near(n);
        while low + 1 < high {
            let middle = low + (high - low) / 2;
            if self.start(middle) <= n {
                low = middle;
            } else {
                high = middle;
            }
        }
        (low, n - self.start(low))
    }

    // Two numbers of lists: the item of that number stands in the first of these lists or behind it, and before the second.
    #[tactic(auto, using(crate::proofs::EndLists::all_of_them, crate::proofs::EndLists::length_between))]
    fn near(&self, n: u32) -> (u32, u32)
        requires { n < sum self.now }
        ensures within { result.1 ≤ length self.now }
        ensures above { sum (take result.0 self.now) ≤ n }
        ensures below { n < sum (take result.1 self.now) }
    {
        let number = n as usize / 64;
        let low = self.firsts[number];
        match self.firsts.get(number + 1) {
            Some(last) => (low, *last + 1),
            None => (low, self.ends.len() as u32),
        }
    }

    // Where the list of that number begins, and, for the number of lists, where the last one ends.
    #[tactic(auto, using(crate::proofs::EndLists::first_start, crate::proofs::EndLists::later_start, crate::proofs::EndLists::within_limit, crate::proofs::EndLists::length_between))]
    fn start(&self, i: u32) -> u32
        requires { i ≤ length self.now }
        ensures is { result ≡ sum (take i self.now) }
        ensures limited { result ≤ 400000000 }
    {
        if i == 0 { 0 } else { self.ends[i as usize - 1] }
    }
}
