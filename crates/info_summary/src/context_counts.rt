// How many contexts there are.
ghost use Rattle.std.specs.Prelude.{◌≡◌, map};
ghost use Rattle.info_summary.specs.SummaryLines.{entry_line};
ghost use Rattle.info_summary.specs.Counts.{path_count, node_count};
ghost use Rattle.info_summary.specs.Summary.{context_lines};

use crate::entry::{Entry, count};
use pol_contexts::Contexts;
use pol_genfs::GenfsList;
use pol_read::Policy;

/// The counts of the contexts of objects.
pub fn context_counts(policy: &Policy<'_>) -> [Entry; 8]
    ensures { map entry_line result ≡ context_lines policy.now.labels }
{
    let contexts = policy.contexts();
    [
        count("Initial SIDs", u64::from(contexts.sid.len())),
        count("Fs_use", u64::from(contexts.fsuse.len())),
        count("Genfscon", path_count(policy.genfs())),
        count("Portcon", u64::from(contexts.port.len())),
        count("Netifcon", u64::from(contexts.netif.len())),
        count("Nodecon", node_count(contexts)),
        count("Ibpkeycon", u64::from(contexts.ibpkey.len())),
        count("Ibendportcon", u64::from(contexts.ibendport.len())),
    ]
}

// How many paths of file systems there are.
#[tactic(auto, using(crate::proofs::Counting::so_many_more))]
fn path_count(systems: &GenfsList<'_>) -> u64
    ensures { result ≡ path_count systems.now }
{
    let mut count = 0;
    for i in 0..systems.len() {
        count += u64::from(systems.view(i).npaths());
    }
    count
}

// How many addresses there are, of IPv4 and of IPv6.
fn node_count(contexts: &Contexts<'_>) -> u64
    ensures { result ≡ node_count contexts.now }
{
    u64::from(contexts.node.len()) + u64::from(contexts.node6.len())
}
