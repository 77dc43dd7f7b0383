// The lines of a policy's capabilities.
ghost use Rattle.std.specs.Prelude.{◌≡◌, ◌++◌, OnOk, IfOk, codes, decimal, option_map, slice_get};
ghost use Rattle.std.specs.List.{filter};
ghost use Rattle.pol_bitmap.specs.Nodes.{bits_of};
ghost use Rattle.info_contexts.specs.NamedEntries.{is_asked};
ghost use Rattle.info_query.specs.Capabilities.{capability_line, capability_listing, capability_name, known_names};

use info_lines::{LineText, NumberedLines};
use pol_bitmap::BitmapView;
use pol_read::Policy;
use pol_texts::push_decimal;
use std::alloc::{AllocError, Global};

/// The lines of capabilities by their numbers, each of which has one.
#[derive(Drop)]
pub struct CapabilityLines {
    expand: bool,
}

impl LineText for CapabilityLines {
    ghost use Rattle.std.specs.Prelude.{⊤};

    ghost has = { λ lines number. ⊤ };

    ghost text = { λ lines number. capability_line lines.expand number };

    fn push_text(&self, number: u32, buffer: &mut Vec<u8>) -> Result<(), AllocError> {
        push_line(number, self.expand, buffer)
    }
}

/// The lines of the capabilities that are printed with the name, or of all where none is given.
#[tactic(auto, using(crate::proofs::CapabilityNumbers::all_have_lines))]
pub fn capability_lines(
    alloc: Global,
    policy: &Policy<'_>,
    expand: bool,
    name: Option<&[u8]>,
) -> Result<NumberedLines<CapabilityLines>, AllocError>
    ensures { IfOk result (λ lines. lines ≡ capability_listing policy.now expand (option_map (λ name. name.now) name.entry)) }
{
    let numbers = numbers_of_name(alloc, policy.capabilities(), name)?;
    Ok(NumberedLines::new(CapabilityLines { expand }, numbers))
}

// The numbers of the capabilities of the name, or of all.
fn numbers_of_name(
    alloc: Global,
    capabilities: &BitmapView<'_>,
    name: Option<&[u8]>,
) -> Result<Vec<u32>, AllocError>
    ensures { IfOk result (λ numbers. numbers.items
        ≡ filter (λ number. is_asked (option_map (λ name. name.now) name.entry) (capability_name number)) (bits_of capabilities.now)) }
{
    let mut numbers = Vec::new(alloc);
    for number in capabilities.bits() {
        if is_asked(alloc, number, name)? {
            numbers.push(number)?;
        }
    }
    Ok(numbers)
}

// Whether the capability is of the name, or none is given.
fn is_asked(alloc: Global, number: u32, name: Option<&[u8]>) -> Result<bool, AllocError>
    ensures { IfOk result (λ asked. asked ≡ is_asked (option_map (λ name. name.now) name.entry) (capability_name number)) }
{
    let Some(name) = name else {
        return Ok(true);
    };
    let mut own = Vec::new(alloc);
    push_name(number, &mut own)?;
    Ok(own.as_slice() == name)
}

// Adds the line of a capability.
#[tactic(auto, unfolding(crate::specs::Capabilities::capability_line))]
fn push_line(number: u32, expand: bool, buffer: &mut Vec<u8>) -> Result<(), AllocError>
    ensures { OnOk result (buffer.new.items ≡ buffer.old.items ++ capability_line expand number) }
{
    if !expand {
        return push_name(number, buffer);
    }
    buffer.extend_from_slice(b"policycap ")?;
    push_name(number, buffer)?;
    buffer.extend_from_slice(b";")
}

// Adds the name of a capability.
#[tactic(auto, unfolding(crate::specs::Capabilities::capability_name))]
fn push_name(number: u32, buffer: &mut Vec<u8>) -> Result<(), AllocError>
    ensures { OnOk result (buffer.new.items ≡ buffer.old.items ++ capability_name number) }
{
    match known_name(number) {
        Some(name) => buffer.extend_from_slice(name.as_bytes()),
        None => push_number(buffer, number),
    }
}

// The name of a capability, where it has one.
fn known_name(number: u32) -> Option<&'static str>
    ensures { option_map (λ name. name.now) result ≡ slice_get known_names number }
{
    match number {
        0 => Some("network_peer_controls"),
        1 => Some("open_perms"),
        2 => Some("extended_socket_class"),
        3 => Some("always_check_network"),
        4 => Some("cgroup_seclabel"),
        5 => Some("nnp_nosuid_transition"),
        6 => Some("genfs_seclabel_symlinks"),
        7 => Some("ioctl_skip_cloexec"),
        _ => None,
    }
}

// Adds the number of a capability that has no name.
fn push_number(buffer: &mut Vec<u8>, number: u32) -> Result<(), AllocError>
    ensures { OnOk result (buffer.new.items ≡ buffer.old.items ++ (codes "capability_" ++ decimal number)) }
{
    push_numbered(buffer, b"capability_", number)
}

// Adds a word and a number behind it.
fn push_numbered(buffer: &mut Vec<u8>, word: &[u8], number: u32) -> Result<(), AllocError>
    ensures { OnOk result (buffer.new.items ≡ buffer.old.items ++ word.now ++ decimal number) }
{
    buffer.extend_from_slice(word)?;
    push_decimal(buffer, u64::from(number))
}
