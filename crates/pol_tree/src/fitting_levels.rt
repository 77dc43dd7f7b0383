// Sets, levels and ranges.
ghost use Rattle.std.specs.Prelude.{None};
ghost use Rattle.pol_bitmap.specs.Bitmap.{BitmapFits};
ghost use Rattle.pol_mls.specs.LevelRecord.{LevelFits};
ghost use Rattle.pol_mls.specs.RangeRecord.{RangeFits};
ghost use Rattle.pol_tree.specs.RecordShapes.{shape_of_range};

use crate::fitting::{Fitting, first_wrong, wrong_presence, wrong_within};
use pol_bitmap::Set;
use pol_fields::Field;
use pol_fields::fields::RANGE_HIGH;
use pol_mls::{LevelRec, RangeRec};

impl Fitting for Set {
    ghost shape = { λ version set. None };

    ghost fits = { λ version set. BitmapFits set };

    #[tactic(auto, using(crate::proofs::FittingSets::set_fits))]
    fn wrong_part(&self, _version: u32) -> Option<Field> {
        let _ = self.nodes();
        None
    }
}

impl Fitting for LevelRec {
    ghost shape = { λ version level. None };

    ghost fits = { λ version level. LevelFits level };

    #[tactic(auto, using(crate::proofs::FittingLevels::level_fits))]
    fn wrong_part(&self, version: u32) -> Option<Field> {
        let _sens = self.sens;
        self.categories.wrong_part(version)
    }
}

impl Fitting for RangeRec {
    ghost shape = { λ version range. shape_of_range range };

    ghost fits = { λ version range. RangeFits range };

    #[tactic(auto, using(crate::proofs::FittingLevels::range_fits))]
    fn wrong_part(&self, version: u32) -> Option<Field> {
        let _low = self.low;
        first_wrong(&[
            self.low_categories.wrong_part(version),
            wrong_presence(self.n == 2, &self.high, RANGE_HIGH),
            wrong_within(&self.high, version),
        ])
    }
}
