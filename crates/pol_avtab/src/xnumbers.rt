ghost use Rattle.std.specs.Prelude.{◌≡◌};
ghost use Rattle.std.specs.Iterator.{YieldsFirst, item_count};
ghost use Rattle.pol_avtab.specs.XPerms.{numbers_of};

use crate::xperms::XPerms;
use std::marker::Model;

/// The ioctl numbers of an extended access vector, rising. Contracts see the list of those that are left.
#[derive(Drop)]
pub struct XNumbers<'a> {
    perms: XPerms<'a>,
    next: u32,
}

impl<'a> Model for XNumbers<'a> {
    ghost use Rattle.std.specs.Prelude.{ℕ, List, ◌≤◌};
    ghost use Rattle.pol_avtab.specs.XPerms.{numbers_from};

    ghost Value = { List ℕ };

    ghost view = { λ n. numbers_from n.perms n.next };

    ghost invariant = { λ n. n.next ≤ 65536 };
}

impl<'a> XNumbers<'a> {
    /// All the numbers.
    pub fn new(perms: XPerms<'a>) -> XNumbers<'a>
        ensures { result ≡ numbers_of perms.entry }
    {
        XNumbers { perms, next: 0 }
    }
}

impl<'a> Iterator for XNumbers<'a> {
    type Item = u16;

    ghost next_gives = { YieldsFirst (λ rest. rest) };

    ghost remaining = { item_count (λ rest. rest) };

    fn next(&mut self) -> Option<u16> {
        if self.next > 65535 {
            return None;
        }
        match self.perms.next_from(self.next as u16) {
            None => None,
            Some(number) => {
                self.next = number as u32 + 1;
                Some(number)
            }
        }
    }
}
