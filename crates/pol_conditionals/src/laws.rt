// The two laws of records, each claimed by a function that does nothing.
ghost use Rattle.std.specs.Prelude.{◌≡◌, ℕ, List};
ghost use Rattle.pol_cursor.specs.Laws.{IsReadAgain, IsReadFromSpelling};
ghost use Rattle.pol_cursor.specs.References.{without_places};
ghost use Rattle.pol_conditionals.specs.CondNodeRecord.{condnode_at, spell_condnode, CondNodeFits};
ghost use Rattle.pol_conditionals.specs.CondNodeList.{conditionals_at, plain_conditionals_at, spell_conditionals, ConditionalsFit};

/// A conditional node that is spelled and accepted is read again, and one that was read is spelled by the bytes that it was read
/// from.
pub fn conditional_nodes_have_laws()
    ensures again { (version : ℕ) → IsReadAgain (condnode_at version) spell_condnode CondNodeFits }
    ensures spelled { (version : ℕ) → IsReadFromSpelling (condnode_at version) spell_condnode CondNodeFits }
{}

/// A list of conditional nodes that is spelled and accepted is read again, and one that was read is spelled by the bytes that it was
/// read from. It is read with the places of the nodes as without them.
pub fn conditionals_have_laws()
    ensures again { (version : ℕ) → IsReadAgain (plain_conditionals_at version) spell_conditionals ConditionalsFit }
    ensures spelled { (version : ℕ) → IsReadFromSpelling (plain_conditionals_at version) spell_conditionals ConditionalsFit }
    ensures unplaced { (version : ℕ) (bytes : List ℕ) (place : ℕ) → without_places (conditionals_at version bytes place) ≡ plain_conditionals_at version bytes place }
{}
