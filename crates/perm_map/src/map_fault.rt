// Why a permission map is refused.
ghost use Rattle.std.specs.Prelude.{◌≡◌};

use std::alloc::{AllocError, AllocFailed};

/// What is wrong at a line of a permission map, in the order in which a line is looked at.
#[derive(Clone, Copy, Debug, PartialEq, Eq)]
pub enum MapCause {
    /// The line has another number of fields, or the line of a class does not begin with `class`.
    BadFields,
    /// A name has a byte outside 0x21 to 0x7E.
    BadName,
    /// A count is not 1 to 9 digits.
    BadNumber,
    /// A direction is none of `r`, `w`, `b`, `n` and `u`.
    BadDirection,
    /// A weight is not 1 to 10.
    BadWeight,
    /// The map ends where a line has to come.
    Missing,
    /// A line comes after the last class.
    Extra,
}

impl MapCause {
    ghost use Rattle.perm_map.specs.MapFaults.{cause_word};

    /// The cause's word in a message: its name.
    pub fn word(&self) -> &'static str
        ensures { result.now ≡ cause_word self.now }
    {
        match self {
            MapCause::BadFields => "BadFields",
            MapCause::BadName => "BadName",
            MapCause::BadNumber => "BadNumber",
            MapCause::BadDirection => "BadDirection",
            MapCause::BadWeight => "BadWeight",
            MapCause::Missing => "Missing",
            MapCause::Extra => "Extra",
        }
    }
}

/// The first fault of a permission map: its line, from 1 on, and its cause.
#[derive(Clone, Copy, Debug, PartialEq, Eq)]
pub struct MapFault {
    pub line: u32,
    pub cause: MapCause,
}

/// Why a permission map is not read.
#[derive(Debug, Drop, thiserror::Error)]
pub enum MapError {
    #[error("the permission map is refused: {0:?}")]
    Fault(MapFault),
    #[error("out of memory")]
    Memory,
}

impl From<MapFault> for MapError {
    ghost use Rattle.std.specs.Prelude.{◌≡◌};
    ghost use Rattle.perm_map.specs.declared.map_fault.MapError.TheVariants as errors;

    ghost from_gives = { λ fault error. error ≡ errors.Fault fault };

    fn from(fault: MapFault) -> MapError {
        MapError::Fault(fault)
    }
}

impl From<AllocError> for MapError {
    ghost use Rattle.std.specs.Prelude.{◌≡◌};
    ghost use Rattle.perm_map.specs.declared.map_fault.MapError.TheVariants.{Memory};

    ghost from_gives = { λ _ error. error ≡ Memory };

    fn from(_error: AllocError) -> MapError {
        MapError::Memory
    }
}

impl<T: Drop> From<AllocFailed<T>> for MapError {
    ghost use Rattle.std.specs.Prelude.{◌≡◌};
    ghost use Rattle.perm_map.specs.declared.map_fault.MapError.TheVariants.{Memory};

    ghost from_gives = { λ _ error. error ≡ Memory };

    fn from(_error: AllocFailed<T>) -> MapError {
        MapError::Memory
    }
}
