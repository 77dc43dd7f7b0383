// The two laws of contexts, claimed by a function that does nothing.
ghost use Rattle.pol_cursor.specs.Laws.{IsReadAgain, IsReadFromSpelling};
ghost use Rattle.pol_mls.specs.ContextRecord.{context_at, spell_context, ContextFits};

/// A context that is spelled and accepted is read again, and one that was read is spelled by the bytes that it was
/// read from.
pub fn contexts_have_laws()
    ensures again { IsReadAgain context_at spell_context ContextFits }
    ensures spelled { IsReadFromSpelling context_at spell_context ContextFits }
{}
