// The conditions of a header's fields: the first cause to refuse a value.
ghost use Rattle.std.specs.Prelude.{◌≡◌};
ghost use Rattle.pol_cursor.specs.Parts.{unless};
ghost use Rattle.pol_file.specs.HeaderRecord.{magic_test, identity_length_test, identity_test, version_test, config_test, symbol_tables_test, context_tables, context_tables_test};

use pol_fields::Cause;
use pol_fields::codes::{
    OCON_IBENDPORT, OCON_NODE6, POLICYDB_VERSION_COND_XPERMS, POLICYDB_VERSION_DEFAULT_TYPE,
    POLICYDB_VERSION_INFINIBAND, SYM_NUM,
};

/// SELINUX_MAGIC of libsepol.
pub const MAGIC: u32 = 0xf97c_ff8c;

fn unless(holds: bool, cause: Cause) -> Option<Cause>
    ensures { result ≡ unless holds cause }
{
    if holds { None } else { Some(cause) }
}

pub fn magic_cause(magic: u32) -> Option<Cause>
    ensures { result ≡ magic_test magic }
{
    unless(magic == MAGIC, Cause::BadMagic)
}

pub fn identity_length_cause(len: u32) -> Option<Cause>
    ensures { result ≡ identity_length_test len }
{
    unless(len == 8, Cause::BadIdentity)
}

pub fn identity_cause(id: &[u8]) -> Option<Cause>
    ensures { result ≡ identity_test id.now }
{
    unless(id == b"SE Linux".as_slice(), Cause::BadIdentity)
}

pub fn version_cause(version: u32) -> Option<Cause>
    ensures { result ≡ version_test version }
{
    unless(
        (POLICYDB_VERSION_DEFAULT_TYPE..=POLICYDB_VERSION_COND_XPERMS).contains(&version),
        Cause::UnsupportedVersion,
    )
}

pub fn config_cause(config: u32) -> Option<Cause>
    ensures { result ≡ config_test config }
{
    if config % 2 != 1 {
        Some(Cause::NotMls)
    } else if config / 2 % 4 == 3 {
        Some(Cause::BadUnknown)
    } else {
        None
    }
}

pub fn symbol_tables_cause(count: u32) -> Option<Cause>
    ensures { result ≡ symbol_tables_test count }
{
    unless(count == SYM_NUM, Cause::BadCounts)
}

/// How many context tables a policy of that version has.
pub fn context_tables(version: u32) -> u32
    ensures { result ≡ context_tables version }
{
    if version >= POLICYDB_VERSION_INFINIBAND {
        u32::from(OCON_IBENDPORT) + 1
    } else {
        u32::from(OCON_NODE6) + 1
    }
}

pub fn context_tables_cause(version: u32, count: u32) -> Option<Cause>
    ensures { result ≡ context_tables_test version count }
{
    unless(count == context_tables(version), Cause::BadCounts)
}
