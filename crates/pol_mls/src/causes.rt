//! The conditions of ranges: the first cause to refuse a value.

ghost use Rattle.std.specs.Prelude.{◌≡◌};
ghost use Rattle.pol_mls.specs.RangeRecord.{n_test};

use pol_fields::Cause;

/// `BadRange` where a range has neither one level nor two.
pub fn n_cause(n: u32) -> Option<Cause>
    ensures { result ≡ n_test n }
{
    if n == 1 || n == 2 {
        None
    } else {
        Some(Cause::BadRange)
    }
}
