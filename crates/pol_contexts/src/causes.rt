//! The condition of how the files of a file system get their contexts.
ghost use Rattle.std.specs.Prelude.{◌≡◌};
ghost use Rattle.pol_contexts.specs.FsUseRecord.{behaviour_test};

use pol_fields::Cause;
use pol_fields::codes::{SECURITY_FS_USE_TASK, SECURITY_FS_USE_XATTR};

/// `BadBehaviour` where it is none of xattr, trans and task.
pub fn behaviour_cause(behaviour: u32) -> Option<Cause>
    ensures { result ≡ behaviour_test behaviour }
{
    if (SECURITY_FS_USE_XATTR..=SECURITY_FS_USE_TASK).contains(&behaviour) {
        None
    } else {
        Some(Cause::BadBehaviour)
    }
}
