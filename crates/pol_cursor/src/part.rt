// The parts that the bytes of a record are made of.
ghost use Rattle.std.specs.Prelude.{◌++◌, ℕ, List};
ghost use Rattle.std.specs.List.{flat_map};
ghost use Rattle.pol_cursor.specs.Parts.{spell_optional};
ghost use Rattle.pol_cursor.specs.Writing.{Writes, spell_part};

use crate::{OwnedList, push_number};
use std::alloc::AllocError;

/// A record or a part of one, which has bytes in the format.
pub trait Written {
    /// The bytes.
    ghost spelling: { Self → List ℕ };

    /// Appends the bytes. Out of memory, a beginning of them was appended.
    fn write(&self, out: &mut Vec<u8>) -> Result<(), AllocError>
        ensures { Writes out.old.items out.new.items (spelling self.now) result };
}

/// Appends the bytes of a record. What differs between versions stands in the record itself, so that they are the same in each
/// version that has such a record. Out of memory, a beginning of them was appended.
pub fn write_record<R: Written>(rec: &R, _version: u32, out: &mut Vec<u8>) -> Result<(), AllocError>
    ensures { Writes out.old.items out.new.items (R.spelling rec.now) result }
{
    rec.write(out)
}

/// A number, of which the lowest bytes are written, as many as its field is wide, the lowest of them first; or bytes.
#[derive(Clone, Copy)]
pub enum Part<'a> {
    U8(u64),
    U16(u64),
    U32(u64),
    U64(u64),
    Bytes(&'a [u8]),
}

impl<'a> Written for Part<'a> {
    ghost spelling = { spell_part };

    #[tactic(auto, using(crate::proofs::Writings::gains_nothing))]
    fn write(&self, out: &mut Vec<u8>) -> Result<(), AllocError> {
        match *self {
            Part::U8(n) => push_number(out, 1, n),
            Part::U16(n) => push_number(out, 2, n),
            Part::U32(n) => push_number(out, 4, n),
            Part::U64(n) => push_number(out, 8, n),
            Part::Bytes(bytes) => out.extend_from_slice(bytes),
        }
    }
}

impl<W: Written> Written for &W {
    ghost spelling = { λ w. W.spelling w.now };

    fn write(&self, out: &mut Vec<u8>) -> Result<(), AllocError> {
        (**self).write(out)
    }
}

impl<A: Written, B: Written> Written for (A, B) {
    ghost spelling = { λ pair. A.spelling pair.0 ++ B.spelling pair.1 };

    #[tactic(auto, using(crate::proofs::Writings::gains_first, crate::proofs::Writings::writes_second))]
    fn write(&self, out: &mut Vec<u8>) -> Result<(), AllocError> {
        self.0.write(out)?;
        self.1.write(out)
    }
}

impl<A: Written, B: Written, C: Written> Written for (A, B, C) {
    ghost spelling = { λ parts. A.spelling parts.0 ++ B.spelling parts.1 ++ C.spelling parts.2 };

    fn write(&self, out: &mut Vec<u8>) -> Result<(), AllocError> {
        (&self.0, (&self.1, &self.2)).write(out)
    }
}

impl<A: Written, B: Written, C: Written, D: Written> Written for (A, B, C, D) {
    ghost spelling = { λ parts. A.spelling parts.0 ++ B.spelling parts.1 ++ C.spelling parts.2 ++ D.spelling parts.3 };

    fn write(&self, out: &mut Vec<u8>) -> Result<(), AllocError> {
        (&self.0, (&self.1, &self.2, &self.3)).write(out)
    }
}

impl<W: Written> Written for Option<W> {
    ghost spelling = { spell_optional W.spelling };

    #[tactic(auto, using(crate::proofs::Writings::gains_nothing))]
    fn write(&self, out: &mut Vec<u8>) -> Result<(), AllocError> {
        match self {
            Some(part) => part.write(out),
            None => Ok(()),
        }
    }
}

impl<W: Written> Written for &[W] {
    ghost spelling = { λ items. flat_map W.spelling items.now };

    fn write(&self, out: &mut Vec<u8>) -> Result<(), AllocError> {
        for item in *self {
            item.write(out)?;
        }
        Ok(())
    }
}

impl<W: Written + Drop> Written for OwnedList<W> {
    ghost spelling = { flat_map W.spelling };

    fn write(&self, out: &mut Vec<u8>) -> Result<(), AllocError> {
        self.as_slice().write(out)
    }
}
