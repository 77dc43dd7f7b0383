/// A rule that stands under one of its ends: its number, and its other end as it is stored.
#[derive(Clone, Copy)]
pub struct RuleRow {
    pub rule: u32,
    pub far: u32,
}

/// So many rows under one end that it pays to sort them.
pub const MANY_ROWS: usize = 1024;
