//! The keywords of constraints.

ghost use Rattle.std.specs.Prelude.{◌≡◌};
ghost use Rattle.diff_constraints.specs.StatedConstraints.{is_mls, keyword_text, kind_of};

use info_classes::ConstraintKind;

/// With which word constraints begin.
#[derive(Clone, Copy, Debug, PartialEq, Eq)]
pub enum ConstraintKeyword {
    Constrain,
    MlsConstrain,
    ValidateTrans,
    MlsValidateTrans,
}

/// What the constraints of a keyword are on.
pub(crate) fn kind_of(keyword: ConstraintKeyword) -> ConstraintKind
    ensures { result ≡ kind_of keyword }
{
    match keyword {
        ConstraintKeyword::Constrain | ConstraintKeyword::MlsConstrain => {
            ConstraintKind::OnPermissions
        }
        ConstraintKeyword::ValidateTrans | ConstraintKeyword::MlsValidateTrans => {
            ConstraintKind::OnChange
        }
    }
}

/// Whether those of a keyword compare levels.
pub(crate) fn is_mls(keyword: ConstraintKeyword) -> bool
    ensures { result ≡ is_mls keyword }
{
    match keyword {
        ConstraintKeyword::Constrain | ConstraintKeyword::ValidateTrans => false,
        ConstraintKeyword::MlsConstrain | ConstraintKeyword::MlsValidateTrans => true,
    }
}

/// The word, with a space behind it.
pub(crate) fn keyword_text(keyword: ConstraintKeyword) -> &'static [u8]
    ensures { result.now ≡ keyword_text keyword }
{
    match keyword {
        ConstraintKeyword::Constrain => b"constrain ",
        ConstraintKeyword::MlsConstrain => b"mlsconstrain ",
        ConstraintKeyword::ValidateTrans => b"validatetrans ",
        ConstraintKeyword::MlsValidateTrans => b"mlsvalidatetrans ",
    }
}
