// Why a policy cannot have another version.
use pol_unheld::Unheld;
use std::alloc::AllocError;

/// Why a tree was not converted.
#[derive(Debug, Drop, thiserror::Error)]
pub enum ConvertError {
    #[error("the version cannot hold the policy: {0:?}")]
    CannotHold(Unheld),
    #[error("out of memory")]
    Memory,
}

impl From<AllocError> for ConvertError {
    ghost use Rattle.std.specs.Prelude.{◌≡◌};
    ghost use Rattle.pol_versions.specs.declared.errors.ConvertError.TheVariants.{Memory};

    ghost from_gives = { λ failure error. error ≡ Memory };

    fn from(_failure: AllocError) -> ConvertError {
        ConvertError::Memory
    }
}
