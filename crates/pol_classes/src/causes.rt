//! The conditions of classes.

ghost use Rattle.std.specs.Prelude.{◌≡◌};
ghost use Rattle.pol_classes.specs.ClassRecord.{common_test, default_test};

use pol_commons::{CommonList, find_common};
use pol_fields::Cause;

/// `UnknownCommon` where a class names a common that is not there.
pub fn common_cause(commons: &CommonList<'_>, name: &[u8]) -> Option<Cause>
    ensures { result ≡ common_test commons.now name.now }
{
    if name.is_empty() || find_common(commons, name).is_some() {
        None
    } else {
        Some(Cause::UnknownCommon)
    }
}

/// `BadDefault` where a default is above the last of those known.
pub fn default_cause(most: u32, default: u32) -> Option<Cause>
    ensures { result ≡ default_test most default }
{
    if default <= most {
        None
    } else {
        Some(Cause::BadDefault)
    }
}
