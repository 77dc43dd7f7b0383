// What has bytes that are made record by record.
ghost use Rattle.std.specs.Prelude.{◌≡◌, ◌+◌, ◌-◌, ◌^◌, ◌++◌, ℕ, List, IfOk, flat_map, length, min};
ghost use Rattle.se_items.specs.Writing.{Emits};

use crate::pages::{count_part, send_part};
use pol_cursor::Written;
use se_items::WriteEnd;
use se_outside::Sink;
use std::alloc::AllocError;

/// What has bytes that are made record by record, in a buffer.
pub trait Paged {
    /// The bytes.
    ghost bytes: { Self → List ℕ };

    /// A number and how many bytes there are, up to the greatest number.
    fn count(&self, start: u64, buffer: &mut Vec<u8>) -> Result<u64, AllocError>
        ensures { IfOk result (λ total. total ≡ min (start + length (bytes self.now)) (2 ^ 64 - 1)) };

    /// Adds the bytes to the buffer, which is written and emptied where it holds a page.
    fn send<S: Sink>(&self, buffer: &mut Vec<u8>, out: &mut S) -> Result<(), WriteEnd>
        ensures { Emits (S.state out.old) (S.state out.new) buffer.old.items buffer.new.items (bytes self.now) result };
}

/// A part that is made at once.
#[derive(Drop)]
pub struct Whole<W: Written + Drop>(pub W);

impl<W: Written + Drop> Paged for Whole<W> {
    ghost bytes = { λ whole. W.spelling whole.0 };

    fn count(&self, start: u64, buffer: &mut Vec<u8>) -> Result<u64, AllocError> {
        count_part(start, &self.0, buffer)
    }

    fn send<S: Sink>(&self, buffer: &mut Vec<u8>, out: &mut S) -> Result<(), WriteEnd> {
        send_part(&self.0, buffer, out)
    }
}

/// Records, one after the other.
#[derive(Drop)]
pub struct Each<'a, W: Written>(pub &'a [W]);

impl<'a, W: Written> Paged for Each<'a, W> {
    ghost bytes = { λ each. flat_map W.spelling each.0.now };

    fn count(&self, start: u64, buffer: &mut Vec<u8>) -> Result<u64, AllocError> {
        let mut total = start;
        for record in self.0 {
            total = count_part(total, record, buffer)?;
        }
        Ok(total)
    }

    fn send<S: Sink>(&self, buffer: &mut Vec<u8>, out: &mut S) -> Result<(), WriteEnd> {
        for record in self.0 {
            send_part(record, buffer, out)?;
        }
        Ok(())
    }
}

impl<A: Paged, B: Paged> Paged for (A, B) {
    ghost bytes = { λ pair. A.bytes pair.0 ++ B.bytes pair.1 };

    #[tactic(auto, using(crate::proofs::Counts::counts_then))]
    fn count(&self, start: u64, buffer: &mut Vec<u8>) -> Result<u64, AllocError> {
        let first = self.0.count(start, buffer)?;
        self.1.count(first, buffer)
    }

    fn send<S: Sink>(&self, buffer: &mut Vec<u8>, out: &mut S) -> Result<(), WriteEnd> {
        self.0.send(buffer, out)?;
        self.1.send(buffer, out)
    }
}
