// What is read wherever it stands, each law claimed by a function that does nothing.
ghost use Rattle.std.specs.Prelude.{◌≡◌, ◌⊎◌, ◌≤◌, ◌<◌, ◌+◌, ◌^◌, ◌++◌, ℕ, false, None, List, length};
ghost use Rattle.std.specs.List.{AllByRecursion};
ghost use Rattle.pol_fields.specs.declared.codes.TheConstants.{POLICYDB_VERSION_XPERMS_IOCTL};
ghost use Rattle.pol_cursor.specs.Outcome.{Got};
ghost use Rattle.pol_bitmap.specs.declared.Node.{Node};
ghost use Rattle.pol_bitmap.specs.Nodes.{IsRisingFrom};
ghost use Rattle.pol_bitmap.specs.Bitmap.{BitmapFits, bitmap_at, high_of, spell_bitmap};
ghost use Rattle.pol_avtab.specs.declared.AvRec.{AvRec};
ghost use Rattle.pol_avtab.specs.AvRecord.{is_extended};
ghost use Rattle.pol_avtab.specs.AvTables.{TableFits, plain_table_at, spell_table};

/// A set whose bits are below 2 to the 32nd is read as itself from its bytes, wherever these stand.
pub fn sets_are_read_anywhere()
    ensures { (set : List Node) (before after : List ℕ) → BitmapFits set → IsRisingFrom 0 set → high_of set < 2 ^ 32 → bitmap_at None (before ++ (spell_bitmap set ++ after)) (length before) ≡ Got set (length before + length (spell_bitmap set)) }
{}

/// A table of access vectors that was read somewhere at a version is read from its bytes at each version that has room for extended ones,
/// where it has some, wherever these bytes stand.
pub fn rules_are_read_at_versions()
    ensures { (old version : ℕ) (rules : List AvRec) (before after front back : List ℕ) → TableFits rules → AllByRecursion (λ av. (is_extended av.specified ≡ false) ⊎ (POLICYDB_VERSION_XPERMS_IOCTL ≤ version)) rules → plain_table_at old (before ++ (spell_table rules ++ after)) (length before) ≡ Got rules (length before + length (spell_table rules)) → plain_table_at version (front ++ (spell_table rules ++ back)) (length front) ≡ Got rules (length front + length (spell_table rules)) }
{}
