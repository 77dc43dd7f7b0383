//! What is spelled is read again, and what is read was spelled: a function with no code claims each law of a record.

ghost use Rattle.std.specs.Prelude.{◌<◌, ◌^◌, ℕ, Option};
ghost use Rattle.pol_cursor.specs.Laws.{IsReadAgain, IsReadFromSpelling};
ghost use Rattle.pol_bitmap.specs.Bitmap.{bitmap_at, high_of, spell_bitmap, BitmapFits};

/// The two laws of a bitmap, whatever the limit of its bits. One that is read ends within 32 bits, the width of highbit.
pub fn bitmaps_have_laws()
    ensures again { (limit : Option ℕ) → IsReadAgain (bitmap_at limit) spell_bitmap BitmapFits }
    ensures spelled { (limit : Option ℕ) → IsReadFromSpelling (bitmap_at limit) spell_bitmap BitmapFits }
    ensures within { (limit : Option ℕ) → IsReadFromSpelling (bitmap_at limit) spell_bitmap (λ ns. high_of ns < 2 ^ 32) }
{}
