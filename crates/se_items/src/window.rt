// The part of a listing that is asked for.
ghost use Rattle.std.specs.Prelude.{◌≡◌, ◌≤◌, length, take};
ghost use Rattle.se_items.specs.Paging.{end_of, page};

/// The most items of a listing: the greatest number of 18 digits.
pub const MOST_ITEMS: u64 = 999_999_999_999_999_999;

/// Which items of a listing are asked for: those after the first so many, and at most so many of them.
#[derive(Clone, Copy, Debug, PartialEq, Eq)]
pub struct Window {
    /// So many items are left out first.
    pub from: u64,
    /// At most so many items.
    pub limit: Option<u64>,
}

impl Window {
    /// The items that are asked for, where these are all.
    pub fn of<'n>(&self, items: &'n [u32]) -> &'n [u32]
        ensures items { result.now ≡ page self.now.from self.now.limit items.now }
        ensures few { length result.now ≤ length items.now }
    {
        let listed = front(items, MOST_ITEMS);
        let passed = self.from.min(listed.len() as u64) as usize;
        match self.limit {
            Some(count) => front(&listed[passed..], count),
            None => &listed[passed..],
        }
    }

    /// Before which item the part ends, where there are so many.
    pub fn end(&self) -> u64
        ensures { result ≡ end_of self.now.from self.now.limit }
    {
        match self.limit {
            Some(count) => self.from.saturating_add(count).min(MOST_ITEMS),
            None => MOST_ITEMS,
        }
    }
}

// The first items, so many.
fn front(items: &[u32], count: u64) -> &[u32]
    ensures { result.now ≡ take count items.now }
{
    &items[..count.min(items.len() as u64) as usize]
}
