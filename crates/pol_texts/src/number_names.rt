//! Numbers that have names: initial SIDs, protocols, ways in which file systems get their contexts.

ghost use Rattle.std.specs.Prelude.{◌≡◌, ◌++◌, OnOk, decimal, option_map};
ghost use Rattle.pol_texts.specs.NumberNames.{known_sid, sid_name, protocol_name, behaviour_word};

use crate::number_texts::push_decimal;
use pol_fields::codes::{SECURITY_FS_USE_TRANS, SECURITY_FS_USE_XATTR};
use std::alloc::AllocError;

/// Appends the name of an initial SID, and `sid_N` where it has none.
#[tactic(auto, unfolding(crate::specs::NumberNames::sid_name))]
pub fn push_sid_name(out: &mut Vec<u8>, sid: u32) -> Result<(), AllocError>
    ensures { OnOk result (out.new.items ≡ out.old.items ++ sid_name sid) }
{
    match known_sid(sid) {
        Some(name) => out.extend_from_slice(name.as_bytes()),
        None => push_numbered(out, b"sid_", sid),
    }
}

// The name of an initial SID, where it has one.
#[tactic(auto, using(crate::proofs::SidNames::no_sid_past))]
fn known_sid(sid: u32) -> Option<&'static str>
    ensures { option_map (λ name. name.now) result ≡ known_sid sid }
{
    match sid {
        1 => Some("kernel"),
        2 => Some("security"),
        3 => Some("unlabeled"),
        4 => Some("fs"),
        5 => Some("file"),
        6 => Some("file_labels"),
        7 => Some("init"),
        8 => Some("any_socket"),
        9 => Some("port"),
        10 => Some("netif"),
        11 => Some("netmsg"),
        12 => Some("node"),
        13 => Some("igmp_packet"),
        14 => Some("icmp_socket"),
        15 => Some("tcp_socket"),
        16 => Some("sysctl_modprobe"),
        17 => Some("sysctl"),
        18 => Some("sysctl_fs"),
        19 => Some("sysctl_kernel"),
        20 => Some("sysctl_net"),
        21 => Some("sysctl_net_unix"),
        22 => Some("sysctl_vm"),
        23 => Some("sysctl_dev"),
        24 => Some("kmod"),
        25 => Some("policy"),
        26 => Some("scmp_packet"),
        27 => Some("devnull"),
        0 | 28.. => None,
    }
}

/// Appends the name of a protocol by its number in the IP header, and `proto_N` where it has none.
pub fn push_protocol_name(out: &mut Vec<u8>, protocol: u32) -> Result<(), AllocError>
    ensures { OnOk result (out.new.items ≡ out.old.items ++ protocol_name protocol) }
{
    match protocol {
        6 => out.extend_from_slice(b"tcp"),
        17 => out.extend_from_slice(b"udp"),
        33 => out.extend_from_slice(b"dccp"),
        132 => out.extend_from_slice(b"sctp"),
        _ => push_numbered(out, b"proto_", protocol),
    }
}

fn push_numbered(out: &mut Vec<u8>, word: &[u8], number: u32) -> Result<(), AllocError>
    ensures { OnOk result (out.new.items ≡ out.old.items ++ word.now ++ decimal number) }
{
    out.extend_from_slice(word)?;
    push_decimal(out, u64::from(number))
}

/// The word of how the files of a file system get their contexts, in a rule: `SECURITY_FS_USE_XATTR` is `fs_use_xattr`, and so on.
pub fn behaviour_word(behaviour: u32) -> &'static str
    ensures { result.now ≡ behaviour_word behaviour }
{
    if behaviour == SECURITY_FS_USE_XATTR {
        "fs_use_xattr"
    } else if behaviour == SECURITY_FS_USE_TRANS {
        "fs_use_trans"
    } else {
        "fs_use_task"
    }
}
