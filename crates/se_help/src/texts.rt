// The texts of the topics, as they are written.
ghost use Rattle.std.specs.Prelude.{◌≡◌};
ghost use Rattle.se_help.specs.Texts.{check_usage, convert_usage, dom_usage, flow_usage, general_usage, info_usage, make_usage, search_usage, topic_text, versions};

use crate::Topic;

// The text of the topic.
pub fn text_of(topic: Topic) -> &'static [u8]
    ensures { result.now ≡ topic_text topic }
{
    match topic {
        Topic::All => general_usage(),
        Topic::Info => info_usage(),
        Topic::Search => search_usage(),
        Topic::Dom => dom_usage(),
        Topic::Flow => flow_usage(),
        Topic::Convert => convert_usage(),
        Topic::Check => check_usage(),
        Topic::Make => make_usage(),
        Topic::Version => versions(),
    }
}

// How the program is used.
#[tactic(auto, unfolding(crate::specs::Texts::general_usage))]
fn general_usage() -> &'static [u8]
    ensures { result.now ≡ general_usage }
{
    b"\
Usage: setools TOOL WORD...
       setools TOOL --help
       setools --help | --version

Answers questions about a compiled SELinux policy.

Tools:
  seinfo         lists what a policy declares, or counts it
  sesearch       searches the rules of a policy
  sedta          finds domain transitions
  seinfoflow     finds information flows, by a permission map
  seconvert      writes a policy at another version
  sechecker      checks a policy by a list of checks
  make           makes a policy of so many types, for tests

Options, each of them alone or behind a tool:
  -h, --help     how the program or the tool is used
      --version  the version, and those of the policies that are read

Words of the tools:
  NAME, TYPE, N  the next word, which does not begin with -; to a long option
                 it may be joined, as --source=NAME
  [NAME]         the next word, where that does not begin with -
  LIST           names or numbers parted by commas
  --             each word behind it is positional

Of an option that is given twice the last counts. Options are not shortened,
and short ones are not put together.

A policy is one file, which has to be named: a kernel policy with MLS,
little-endian, of version 28 to 34 and at most 64 MiB. That of the running
system is /sys/fs/selinux/policy.

Exit codes:
  0  what was asked was written
  1  the policy, the map or the checklist is refused, or a name, number or
     pattern; or a version cannot hold the policy
  2  the words do not fit
  3  reading or writing failed
  5  out of memory

Examples:
  setools seinfo /sys/fs/selinux/policy
  setools sesearch policy.33 -A -t shadow_t -c file -p write

The manual page setools(1) says what each message means.
"
}

// How `seinfo` is used.
#[tactic(auto, unfolding(crate::specs::Texts::info_usage))]
fn info_usage() -> &'static [u8]
    ensures { result.now ≡ info_usage }
{
    b"\
Usage: setools seinfo POLICY [options]

Lists what a compiled SELinux policy declares; without a listing, counts it.

Listings of all or of one name; an unknown name is refused:
  -c, --class [NAME]           classes
      --common [NAME]          commons
      --constrain [CLASS]      constraints on permissions
      --validatetrans [CLASS]  constraints on changes of context
      --default [CLASS]        default rules
  -r, --role [NAME]            roles
  -t, --type [NAME]            types that are no attributes
  -a, --attribute [NAME]       attributes
  -u, --user [NAME]            users
  -b, --bool [NAME]            booleans
      --sensitivity [NAME]     sensitivities
      --category [NAME]        categories
      --permissive [TYPE]      permissive types

Listings of all or of one name; an unknown name gives no lines:
      --initialsid [NAME]      initial SIDs
      --fs_use [FILESYSTEM]    contexts of file systems by fs_use
      --genfscon [FILESYSTEM]  contexts of file systems by path
      --netifcon [INTERFACE]   contexts of network interfaces
      --polcap [NAME]          policy capabilities

Listings of all:
      --nodecon                contexts of network nodes
      --portcon                contexts of ports
      --ibpkeycon              contexts of InfiniBand partition keys
      --ibendportcon           contexts of InfiniBand end ports
      --typebounds             bounds of types
      --all                    every listing

Output:
  -x, --expand                 statements in place of names
      --flat                   the lines alone

A name is the next word, where that does not begin with -; so write the policy
first.

Exit codes:
  0  the listings, or the summary, were written
  1  the policy is refused, or a name is unknown
  2  the words do not fit
  3  the policy could not be read, or the output not written
  5  out of memory

Examples:
  setools seinfo policy.33 -t httpd_t -x
  setools seinfo policy.33 --portcon --flat
"
}

// How `sesearch` is used.
#[tactic(auto, unfolding(crate::specs::Texts::search_usage))]
fn search_usage() -> &'static [u8]
    ensures { result.now ≡ search_usage }
{
    b"\
Usage: setools sesearch POLICY KIND... [options]

Writes the rules of a compiled SELinux policy that are of the kinds and meet
every criterion.

Kinds, one at least:
  -A                     allow and allowxperm rules
      --allow            allow rules
      --allowxperm       extended allow rules, of ioctl numbers
      --auditallow       auditallow rules
      --auditallowxperm  extended auditallow rules
      --dontaudit        dontaudit rules
      --dontauditxperm   extended dontaudit rules
  -T, --type_trans       type_transition rules
      --type_change      type_change rules
      --type_member      type_member rules
      --role_allow       allow rules of roles
      --role_trans       role_transition rules
      --range_trans      range_transition rules

Criteria; a LIST is parted by commas:
  -s, --source NAME      the source: a type, an attribute or a role
  -t, --target NAME      the target, likewise
  -c, --class LIST       the class is one of these
  -p, --perms LIST       the rule has one of these permissions
  -x, --xperms LIST      it has one of these ioctl numbers, in hexadecimal
  -D, --default NAME     the default type, or the new role
  -b, --bool LIST        its condition has one of these booleans

How they are compared:
  -ds                    the stored source itself is the one named
  -dt                    the stored target itself is the one named
  -rs                    the source is a pattern
  -rt                    the target is a pattern
  -rc                    the class is a pattern
  -rd                    the default is a pattern
  -rb                    the boolean is a pattern
  -ep                    exactly these permissions; not with -Sp
  -Sp                    all of these permissions
  -ex                    exactly these ioctl numbers
  -eb                    exactly these booleans; not with -rb

Output:
      --singles          a line for each source type with each target type
  -l N                   at most N lines
      --from N           leave out the first N lines

Exit codes:
  0  the rules were written, also where there are none
  1  the policy is refused, a name is unknown, or a number or pattern is none
  2  the words do not fit
  3  the policy could not be read, or the output not written
  5  out of memory

Examples:
  setools sesearch policy.33 -A -t shadow_t -c file -p write
  setools sesearch policy.33 -A -b httpd_can_network_connect
"
}

// How `sedta` is used.
#[tactic(auto, unfolding(crate::specs::Texts::dom_usage))]
fn dom_usage() -> &'static [u8]
    ensures { result.now ≡ dom_usage }
{
    b"\
Usage: setools sedta -p POLICY -s TYPE [options] [EXCLUDED]...
       setools sedta -p POLICY -s TYPE -t TYPE -S [options] [EXCLUDED]...
       setools sedta -p POLICY -s TYPE -t TYPE -A N [options] [EXCLUDED]...

Finds the domain transitions of a compiled SELinux policy: those from a type,
those into it, or the paths to another type, with their rules.

Policy:
  -p, --policy POLICY    the file of the policy

Types, of which none is an attribute:
  -s, --source TYPE      the source
  -t, --target TYPE      the target; needs one of -S and -A
  EXCLUDED               at this type no step begins or ends

Search:
  -S, --shortest_path    all shortest paths to the target; needs -t
  -A N                   all paths of at most N steps, 1 to 99, that have no
                           type twice; needs -t, not with -S
  -r, --reverse          the transitions into the source; not with -t
      --bool-state LIST  only the rules that count where booleans are so:
                           NAME=on or NAME=off, parted by commas; others are
                           as the policy has them. Without it all rules

Output:
  -l, --limit_trans N    at most N transitions or paths
      --from N           leave out the first N transitions or paths

Exit codes:
  0  the transitions or paths were written, also where there are none
  1  the policy is refused, a type is unknown or an attribute, or a boolean is
     unknown
  2  the words do not fit
  3  the policy could not be read, or the output not written
  5  out of memory

Examples:
  setools sedta -p policy.33 -s sshd_t -r
  setools sedta -p policy.33 -s user_t -t sysadm_t -S
  setools sedta -p policy.33 -s sshd_t --bool-state ssh_sysadm_login=on
"
}

// How `seinfoflow` is used.
#[tactic(auto, unfolding(crate::specs::Texts::flow_usage))]
fn flow_usage() -> &'static [u8]
    ensures { result.now ≡ flow_usage }
{
    b"\
Usage: setools seinfoflow -p POLICY -m MAP -s TYPE [options] [EXCLUDED]...
       setools seinfoflow -p POLICY -m MAP -s TYPE -t TYPE -S [options]
                          [EXCLUDED]...
       setools seinfoflow -p POLICY -m MAP -s TYPE -t TYPE -A N [options]
                          [EXCLUDED]...

Finds the information flows of a compiled SELinux policy by a permission map:
those from a type, those into it, or the paths to another type, with their
rules.

Files:
  -p, --policy POLICY    the policy
  -m, --map MAP          the permission map

Types, of which none is an attribute:
  -s, --source TYPE      the source
  -t, --target TYPE      the target; needs one of -S and -A
  EXCLUDED               at this type no flow begins or ends

Search:
  -S, --shortest_path    all shortest paths to the target; needs -t
  -A N                   all paths of at most N steps, 1 to 99, that have no
                           type twice; needs -t, not with -S
  -r, --reverse          the flows into the source; not with -t
  -w, --min_weight W     flows of at least this weight, 1 to 10; without it 3
      --bool-state LIST  only the rules that count where booleans are so:
                           NAME=on or NAME=off, parted by commas; others are
                           as the policy has them. Without it all rules

Output:
  -l, --limit_flows N    at most N flows or paths
      --from N           leave out the first N flows or paths

Exit codes:
  0  the flows or paths were written, also where there are none
  1  the policy or the map is refused, a type is unknown or an attribute, or a
     boolean is unknown
  2  the words do not fit
  3  the policy or the map could not be read, or the output not written
  5  out of memory

Examples:
  setools seinfoflow -p policy.33 -m perm_map -s shadow_t -w 10
  setools seinfoflow -p policy.33 -m perm_map -s httpd_t -t shadow_t -S
  setools seinfoflow -p policy.33 -m perm_map -s httpd_t -t shadow_t -A 3
"
}

// How `seconvert` is used.
#[tactic(auto, unfolding(crate::specs::Texts::convert_usage))]
fn convert_usage() -> &'static [u8]
    ensures { result.now ≡ convert_usage }
{
    b"\
Usage: setools seconvert POLICY -c VERSION

Writes a compiled SELinux policy at another version, as bytes, to standard
output. It has the same rules, contexts and other records; what the version
cannot hold is refused by name, and nothing is left out.

Conversion:
  -c VERSION             the version, 28 to 34; it has to be given

What a version cannot hold:
  Extended               below 30: rules on ioctl numbers
  ConditionalExtended    below 34: such rules that depend on booleans
  Infiniband             below 31: contexts of InfiniBand
  TooLong                a policy that would have more than 64 MiB

Exit codes:
  0  the policy was written
  1  the policy is refused, or the version cannot hold it
  2  the words do not fit
  3  the policy could not be read, or the output not written
  5  out of memory

Examples:
  setools seconvert policy.33 -c 31 >policy.31

The manual page seconvert(1) says what to do where a version cannot hold a
policy.
"
}

// How `sechecker` is used.
#[tactic(auto, unfolding(crate::specs::Texts::check_usage))]
fn check_usage() -> &'static [u8]
    ensures { result.now ≡ check_usage }
{
    b"\
Usage: setools sechecker POLICY LIST

Checks a compiled SELinux policy by a list of checks, and writes for each one
whether it passes, or what it found.

Files:
  POLICY                 the policy
  LIST                   the checklist

A check is a heading and its options, one a line, with spaces around =:
  [NAME]                           begins a check
  check_type = assert_te           finds the allow rules of source, target,
                                     class and perms, but for exempt_source and
                                     exempt_target
  check_type = empty_typeattr      finds the types of attr, an attribute, which
                                     with missing_ok = true need not be there
  check_type = ro_execs            finds the types of files that are executed
                                     and written, but for exempt_file,
                                     exempt_exec_domain, exempt_write_domain
An option may have several values, parted by spaces. # begins a comment. A
check passes that finds nothing.

Exit codes:
  0  the checks were made, whether they passed or failed
  1  the policy or the checklist is refused
  2  the words do not fit
  3  a file could not be read, or the output not written
  5  out of memory

Examples:
  setools sechecker policy.33 checks
  setools sechecker policy.33 checks | grep -qx 'Failed checks: 0'

The manual page sechecker(1) says what each check finds.
"
}

// How make is used.
#[tactic(auto, unfolding(crate::specs::Texts::make_usage))]
fn make_usage() -> &'static [u8]
    ensures { result.now ≡ make_usage }
{
    b"\
Usage: setools make N [--bytes]

Makes a policy for measurements and tests, with N types in a ring, each with a
domain transition to the next, and counts what it declares.

  N                      how many types: a multiple of 20 from 200 to 5000

Output:
      --bytes            the policy itself, in place of the counts

Exit codes:
  0  the counts, or the policy, were written
  2  the words do not fit
  3  the output could not be written
  5  out of memory

Examples:
  setools make 200
  setools make 5000 --bytes >made.policy
"
}

// The versions of the program and of the policies that it reads.
#[tactic(auto, unfolding(crate::specs::Texts::versions))]
fn versions() -> &'static [u8]
    ensures { result.now ≡ versions }
{
    b"\
setools 0.2.0
Reads SELinux kernel policies with MLS, little-endian, of version 28 to 34.
"
}
