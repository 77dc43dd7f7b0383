// A file read whole, in bounded turns.
ghost use Rattle.std.specs.Prelude.{◌≡◌, ◌<◌, ◌^◌, false, true, length};
ghost use Rattle.se_tools.specs.Reading.{ReadsOn, ReadsWhole};

use se_outside::{Files, Slot};
use std::alloc::Global;

// The most that one turn asks for.
const TURN: usize = 65_536;

/// Why a file was not read whole.
#[derive(Clone, Copy, Debug, PartialEq, Eq)]
pub enum ReadEnd {
    /// A call to the files failed.
    Fault,
    /// The file has more bytes than the limit.
    TooLarge,
    /// Out of memory.
    Memory,
}

/// Reads what a slot holds under a name, if that is at most `limit` bytes. Room is made at once for as many bytes as the
/// files say are there, up to the limit, and each is read to its place.
pub fn read_whole<F: Files>(
    alloc: Global,
    files: &mut F,
    slot: Slot,
    name: &str,
    limit: usize,
) -> Result<Vec<u8>, ReadEnd>
    requires asked { (F.state files.old slot).asked ≡ false }
    requires limit { limit < 2 ^ 62 }
    ensures reads { ReadsWhole (F.world files.old) (F.state files.old) (F.state files.new)
        slot name.now limit result }
    ensures world { F.world files.new ≡ F.world files.old }
{
    let Ok(()) = files.open(slot, name) else {
        return Err(ReadEnd::Fault);
    };
    // With a byte more, so that the end is found without further room.
    let room = files.size_hint(slot).min(limit as u64) as usize + 1;
    let Ok(mut bytes) = Vec::with_capacity(alloc, room) else {
        return Err(ReadEnd::Memory);
    };
    // Each turn but the last reads a byte at least, so one more than the limit and one for the end are enough.
    'turns: for _turn in 0..limit + 2 {
        let count = match read_on(files, slot, room, &mut bytes) {
            Ok(count) => count,
            Err(end) => return Err(end),
        };
        if count == 0 {
            return Ok(bytes);
        }
        if bytes.len() > limit {
            return Err(ReadEnd::TooLarge);
        }
    }
    Err(ReadEnd::TooLarge)
}

// Reads once, straight to the end of the bytes, and answers how many came.
fn read_on<F: Files>(
    files: &mut F,
    slot: Slot,
    room: usize,
    bytes: &mut Vec<u8>,
) -> Result<usize, ReadEnd>
    requires opened { (F.state files.old slot).is_open ≡ true }
    requires small { length bytes.old.items < 2 ^ 63 }
    ensures reads { ReadsOn (F.state files.old) (F.state files.new) slot bytes.old.items bytes.new.items result }
    ensures world { F.world files.new ≡ F.world files.old }
{
    let filled = bytes.len();
    let Ok(()) = bytes.resize(turn_end(filled, room), 0) else {
        return Err(ReadEnd::Memory);
    };
    let Ok(count) = files.read(slot, &mut bytes[filled..]) else {
        return Err(ReadEnd::Fault);
    };
    bytes.truncate(filled + count);
    Ok(count)
}

// How far the bytes may grow in a turn: up to the room, and beyond it where that is full.
fn turn_end(filled: usize, room: usize) -> usize
    requires { filled < 2 ^ 63 }
    ensures { filled < result }
{
    if filled < room {
        room.min(filled + TURN)
    } else {
        filled + TURN
    }
}
