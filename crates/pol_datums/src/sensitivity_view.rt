//! A sensitivity in the buffer, and how it is read.

ghost use Rattle.std.specs.Prelude.{◌≡◌, ◌+◌, ◌≤◌, IfOk, OnOk, length};
ghost use Rattle.pol_cursor.specs.Parts.{num};
ghost use Rattle.pol_cursor.specs.Outcome.{Answers};
ghost use Rattle.pol_datums.specs.SensitivityRecord.{sens_at, sensitivity_at, sensitivity_in, HasSensitivity, sens_place};

use crate::causes::sens_cause;
use crate::datum::{CopiedDatum, DatumView, ReferringDatum};
use crate::flags::read_flag;
use crate::sensitivity_rec::SensitivityRec;
use crate::symbol_references::dangling_alias;
use pol_bitmap::{BitmapView, Set};
use pol_cursor::{ByteList, Cursor, Mention, Names, refuse, u32_in};
use pol_fields::fields::{
    SENSITIVITY_ISALIAS, SENSITIVITY_LEN, SENSITIVITY_NAME, SENSITIVITY_SENS,
};
use pol_fields::{Fault, TableKind};
use pol_symtab::{Taken, read_symbol_length, read_symbol_name};
use std::alloc::{AllocError, Global};
use std::marker::PhantomData;

/// A sensitivity or an alias of one in the buffer.
pub type SensitivityView<'a> = DatumView<'a, SensitivityRec>;

impl<'a> SensitivityView<'a> {
    /// 1 for an alias, else 0.
    pub fn isalias(&self) -> u32
        ensures { result ≡ self.now.value.isalias }
    {
        u32_in(self.bytes, self.place as usize + 4)
    }

    /// The value of the sensitivity. An alias has that of the sensitivity that it stands for.
    pub fn sens(&self) -> u32
        ensures { result ≡ self.now.value.sens }
    {
        u32_in(self.bytes, sens_place(self.bytes, self.place) as usize)
    }

    /// The categories that go with it: bit v - 1 stands for the value v.
    pub fn categories(&self) -> BitmapView<'a>
        ensures { result ≡ self.now.value.categories }
    {
        BitmapView::at(self.bytes, sens_place(self.bytes, self.place) + 4)
    }
}

impl ReferringDatum for SensitivityRec {
    ghost use Rattle.pol_datums.specs.SensitivityRecord.{sensitivity_references};

    ghost references = { sensitivity_references };

    /// The sensitivity that an alias stands for as a fault at its field, where no primary record declares it.
    fn dangling<N: Names>(view: &SensitivityView<'_>, names: &N) -> Option<Fault> {
        let place = view.place + 8 + view.name().len() as u32;
        let stands_for = Mention::new(SENSITIVITY_SENS, place, TableKind::Levels, view.sens());
        dangling_alias(names, view.is_primary(), stands_for)
    }
}

impl CopiedDatum for SensitivityRec {
    fn rec(view: &SensitivityView<'_>, alloc: Global) -> Result<SensitivityRec, AllocError> {
        Ok(SensitivityRec {
            isalias: view.isalias(),
            name: ByteList::copy_of(alloc, view.name())?,
            sens: view.sens(),
            categories: Set::from_view(alloc, &view.categories())?,
        })
    }
}

// The place of the value, behind the name of the sensitivity there.
fn sens_place(bytes: &[u8], place: u32) -> u32
    requires { HasSensitivity bytes.now place }
    ensures { result ≡ sens_place bytes.now place }
{
    place + 8 + u32_in(bytes, place as usize)
}

/// The sensitivity at the cursor, which then stands behind it, under what the records before it in the table have taken. Takes
/// no memory. `EmptyName`, `BadFlag`, `BadNameByte`, `DuplicateName`, `ValueOut`, `DuplicateValue` where it is primary and its
/// value is taken, or a fault of the bitmap.
#[tactic(auto, unfolding(crate::specs::SensitivityRecord::sensitivity_at))]
pub fn read_sensitivity<'a>(
    c: &mut Cursor<'a>,
    taken: &Taken<'a>,
    nprim: u32,
) -> Result<SensitivityView<'a>, Fault>
    ensures exact { Answers (λ level. level.value) result (sensitivity_at taken.now nprim) c.old c.new }
    ensures stands { IfOk result (λ level. HasSensitivity c.old.bytes c.old.place × (level ≡ record { place = c.old.place; value = sensitivity_in c.old.bytes c.old.place })) }
{
    let bytes = c.bytes();
    let place = c.place();
    let len = read_symbol_length(c, SENSITIVITY_LEN)?;
    let isalias = read_flag(c, SENSITIVITY_ISALIAS)?;
    read_symbol_name(c, SENSITIVITY_NAME, len, taken)?;
    read_sens(c, taken, nprim, isalias)?;
    BitmapView::read(c)?;
    Ok(DatumView {
        bytes,
        place,
        kind: PhantomData,
    })
}

// The value of a sensitivity at the cursor, behind its name.
#[tactic(auto, unfolding(crate::specs::SensitivityRecord::sens_at), using(pol_cursor::proofs::Facts::number_is))]
fn read_sens(c: &mut Cursor<'_>, taken: &Taken<'_>, nprim: u32, isalias: u32) -> Result<u32, Fault>
    ensures exact { Answers (λ sens. sens) result (sens_at nprim taken.now isalias) c.old c.new }
    ensures same { IfOk result (λ sens. sens ≡ num c.old.bytes c.old.place 4) }
    ensures next { OnOk result ((c.new.place ≡ c.old.place + 4) × (c.new.place ≤ length c.old.bytes)) }
{
    let place = c.place();
    let sens = c.u32(SENSITIVITY_SENS)?;
    refuse(
        sens_cause(nprim, taken, isalias, sens),
        place,
        SENSITIVITY_SENS,
    )?;
    Ok(sens)
}
