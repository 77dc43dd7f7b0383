// Permissions as bits, against those of a rule's mask.
ghost use Rattle.std.specs.Prelude.{◌≡◌, ◌<◌, ◌==◌, ◌^◌, ◌&&◌, ◌||◌, ℕ};
ghost use Rattle.std.specs.Int.{bit_at};
ghost use Rattle.flow_search.specs.Inner.WeightTables.{shares_bit};

/// The permissions of a class that flow at least a weight, from the source of a rule to its target and back, by their bits in a mask.
#[derive(Clone, Copy)]
pub struct ReachBits {
    pub out: u32,
    pub into: u32,
}

/// Whether a rule flows at least a weight, each way.
#[derive(Clone, Copy)]
pub struct Ways {
    pub out: bool,
    pub into: bool,
}

impl ReachBits {
    /// Whether a mask has one of them, each way.
    pub fn shared(&self, mask: u32) -> Ways
        ensures out { result.out ≡ shares_bit mask self.now.out }
        ensures into { result.into ≡ shares_bit mask self.now.into }
    {
        Ways {
            out: self.out & mask != 0,
            into: self.into & mask != 0,
        }
    }
}

/// Bits with that of a place where it belongs to them. There is none from place 32 on.
pub fn with_bit(bits: u32, place: u32, belongs: bool) -> u32
    ensures { (mask : ℕ) → mask < 2 ^ 32 → shares_bit mask result ≡ (shares_bit mask bits || (belongs && (bit_at mask place == 1))) }
{
    if belongs && place < 32 {
        bits | bit_of(place)
    } else {
        bits
    }
}

// The bit of a place.
fn bit_of(place: u32) -> u32
    requires { place < 32 }
    ensures { result ≡ 2 ^ place }
{
    1 << place
}
