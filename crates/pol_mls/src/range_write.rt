//! How a range is written.

ghost use Rattle.std.specs.Prelude.{◌≡◌};
ghost use Rattle.pol_cursor.specs.Parts.{spell_optional};
ghost use Rattle.pol_cursor.specs.Spelling.{bytes_of};
ghost use Rattle.pol_cursor.specs.Writing.{spell_part};
ghost use Rattle.pol_bitmap.specs.Bitmap.{spell_bitmap};

use crate::range_rec::RangeRec;
use pol_bitmap::Set;
use pol_cursor::{Part, Written};
use std::alloc::AllocError;

impl Written for RangeRec {
    ghost use Rattle.pol_mls.specs.RangeRecord.{spell_range};

    ghost spelling = { spell_range };

    fn write(&self, out: &mut Vec<u8>) -> Result<(), AllocError> {
        let n = Part::U32(self.n as u64);
        let low = Part::U32(self.low as u64);
        let categories = (&self.low_categories, high_categories(self));
        (n, low, high_sens(self), categories).write(out)
    }
}

// The sensitivity of the high level, where the range has one of its own.
fn high_sens(range: &RangeRec) -> Option<Part<'static>>
    ensures { spell_optional spell_part result ≡ spell_optional (λ level. bytes_of 4 level.sens) range.now.high }
{
    match &range.high {
        Some(high) => Some(Part::U32(high.sens as u64)),
        None => None,
    }
}

// The categories of the high level, where the range has one of its own.
fn high_categories(range: &RangeRec) -> Option<&Set>
    ensures { spell_optional (λ set. spell_bitmap set.now) result ≡ spell_optional (λ level. spell_bitmap level.categories) range.now.high }
{
    match &range.high {
        Some(high) => Some(&high.categories),
        None => None,
    }
}
