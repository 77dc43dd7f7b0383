// The declared sources of a datum.
ghost use Rattle.std.specs.Prelude.{◌≡◌, ◌+◌, ◌-◌, ◌^◌, length, min};
ghost use Rattle.pol_bitmap.specs.Nodes.{bits_of};
ghost use Rattle.pol_bitmap.specs.Sets.{IsSet};
ghost use Rattle.pol_convert.specs.Ungrouped.{declared_sources};
ghost use Rattle.pol_convert.specs.Inner.FoundSources.{found_sources, source_of_bit};

use pol_bitmap::Set;

/// The value that a bit of sources stands for, if it is declared.
pub fn declared_source(declared: &Set, bit: u32) -> Option<u32>
    requires { IsSet declared.now }
    ensures { result ≡ source_of_bit declared.now bit }
{
    if bit < u32::MAX && declared.has(bit + 1) {
        return Some(bit + 1);
    }
    None
}

/// A count and the number of the declared sources, up to the greatest count.
pub fn with_sources(start: u64, sources: &Set, declared: &Set) -> u64
    requires { IsSet declared.now }
    ensures { result ≡ min (start + length (declared_sources declared.now sources.now)) (2 ^ 64 - 1) }
{
    let count = with_found(start, sources, declared);
    // the clause of the nodes says that the bits rise
    let _ = sources.nodes();
    count
}

// Counts them bit by bit.
fn with_found(start: u64, sources: &Set, declared: &Set) -> u64
    requires { IsSet declared.now }
    ensures { result ≡ min (start + length (found_sources declared.now (bits_of sources.now))) (2 ^ 64 - 1) }
{
    let mut count = start;
    for bit in sources.bits() {
        match declared_source(declared, bit) {
            Some(_) => count = count.saturating_add(1),
            None => {}
        }
    }
    count
}
