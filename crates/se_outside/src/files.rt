// Files by slot, as the tools see them.
ghost use Rattle.std.specs.Prelude.{◌≡◌, ◌<◌, ℕ, List, length, true, false};
ghost use Rattle.se_outside.specs.Outside.{SlotState, World, Opens, Reads};

/// Which file of a request it is.
#[derive(Clone, Copy, Debug, PartialEq, Eq)]
pub enum Slot {
    /// The compiled policy.
    Policy,
    /// The permission map.
    Map,
    /// The checklist.
    List,
}

/// A call to the outside failed. The object counts it as a fault; where the count stands at its last
/// value, the fault is told by this error alone.
#[derive(Clone, Copy, Debug, PartialEq, Eq)]
pub struct Failed;

/// Files by slot. A slot is asked from its first `open` on, also where that failed, and is opened at
/// most once. No call for a slot changes anything of another slot, and none changes what a name
/// holds.
pub trait Files {
    ghost use Rattle.se_outside.specs.declared.files.Slot.{Slot};

    /// What is known of a slot: whether it was asked and is open, the name asked and the bytes left,
    /// where the object tells them, its faults, and the reads asked of it.
    ghost state: { Self → Slot → SlotState };

    /// What each name holds for each slot, where the object tells it.
    ghost world: { Self → World };

    /// Opens a slot that was not asked yet under a name. A name that is not there is a failure.
    fn open(&mut self, slot: Slot, name: &str) -> Result<(), Failed>
        requires { (state self.old slot).asked ≡ false }
        ensures opens { Opens (world self.old) (state self.old) (state self.new) slot name.now result }
        ensures world { world self.new ≡ world self.old };

    /// Reads some of the bytes that an open slot has left into the front of `into`, which is not
    /// empty, and answers how many. It answers 0 at the end alone.
    fn read(&mut self, slot: Slot, into: &mut [u8]) -> Result<usize, Failed>
        requires opened { (state self.old slot).is_open ≡ true }
        requires room { 0 < length into.old }
        ensures reads { Reads (state self.old) (state self.new) slot into.new result }
        ensures world { world self.new ≡ world self.old };

    /// About how many bytes a slot has left, so that room can be made for them, and 0 where that is not known. It is a
    /// hint: no answer rests on it.
    fn size_hint(&self, _slot: Slot) -> u64 {
        0
    }
}
