// The tree: a policy as lists of owned records.
ghost use Rattle.std.specs.Prelude.{◌≡◌, [], IfOk};
ghost use Rattle.pol_bitmap.specs.Nodes.{bits_of};
ghost use Rattle.pol_tree.specs.PolicyTree.{empty_tree};

use pol_avtab::AvRecList;
use pol_bitmap::{Set, SetList};
use pol_classes::ClassRecList;
use pol_commons::CommonRecList;
use pol_conditionals::CondNodeRecList;
use pol_contexts::{
    FsRecList, FsUseRecList, IbEndPortRecList, IbPkeyRecList, NetifRecList, Node6RecList,
    NodeRecList, PortRecList, SidRecList,
};
use pol_cursor::OwnedList;
use pol_datums::{BooleanRecList, CategoryRecList, RoleRecList, SensitivityRecList, TypeRecList};
use pol_genfs::GenfsRecList;
use pol_symbols::UserRecList;
use pol_trans::{
    NameGroupRecList, NameTransRecList, RangeTransRecList, RoleAllowRecList, RoleTransRecList,
};
use std::alloc::{AllocError, Global};

/// A policy as lists of owned records, each in file order.
pub struct Tree {
    /// The version of the format, 28 to 34.
    pub version: u32,
    /// Bit 0x1 is MLS, 0x2 refuses unknown classes and 0x4 allows them.
    pub config: u32,
    /// The numbers of the policy's capabilities are the bits.
    pub capabilities: Set,
    /// The types whose domains are permissive: bit t stands for the type value t.
    pub permissive: Set,
    /// The greatest value that each symbol table may declare, in the order of the tables.
    pub nprims: [u32; 8],
    pub commons: CommonRecList,
    pub classes: ClassRecList,
    pub roles: RoleRecList,
    pub types: TypeRecList,
    pub users: UserRecList,
    pub booleans: BooleanRecList,
    pub levels: SensitivityRecList,
    pub categories: CategoryRecList,
    pub avtab: AvRecList,
    pub condlist: CondNodeRecList,
    pub roletrans: RoleTransRecList,
    pub roleallow: RoleAllowRecList,
    /// The file-name transitions one by one, up to version 32. It is empty from version 33 on.
    pub nametrans: NameTransRecList,
    /// The file-name transitions as groups, from version 33 on. It is empty below.
    pub namegroup: NameGroupRecList,
    pub sid: SidRecList,
    pub fs: FsRecList,
    pub port: PortRecList,
    pub netif: NetifRecList,
    pub node: NodeRecList,
    pub fsuse: FsUseRecList,
    pub node6: Node6RecList,
    /// It is empty below version 31.
    pub ibpkey: IbPkeyRecList,
    /// It is empty below version 31.
    pub ibendport: IbEndPortRecList,
    pub genfs: GenfsRecList,
    pub rangetrans: RangeTransRecList,
    /// The rows of the type map, one for each type value, that of 1 first: bit v - 1 stands for the value v.
    pub typemap: SetList,
}

// Its parts go in one call, wherever it is dropped.
impl Drop for Tree {
    fn drop(self) {
        let Tree {
            version,
            config,
            capabilities,
            permissive,
            nprims,
            commons,
            classes,
            roles,
            types,
            users,
            booleans,
            levels,
            categories,
            avtab,
            condlist,
            roletrans,
            roleallow,
            nametrans,
            namegroup,
            sid,
            fs,
            port,
            netif,
            node,
            fsuse,
            node6,
            ibpkey,
            ibendport,
            genfs,
            rangetrans,
            typemap,
        } = self;
    }
}

impl Tree {
    /// A policy that has nothing in it yet.
    pub fn empty(alloc: Global) -> Result<Tree, AllocError>
        ensures rest { IfOk result (λ tree. tree ≡ record empty_tree { capabilities = tree.capabilities; permissive = tree.permissive }) }
        ensures capabilities { IfOk result (λ tree. bits_of tree.capabilities ≡ []) }
        ensures permissive { IfOk result (λ tree. bits_of tree.permissive ≡ []) }
    {
        let capabilities = Set::empty(alloc)?;
        let permissive = Set::empty(alloc)?;
        Ok(Tree {
            version: 0,
            config: 0,
            capabilities,
            permissive,
            nprims: [0; 8],
            commons: nothing(alloc),
            classes: nothing(alloc),
            roles: nothing(alloc),
            types: nothing(alloc),
            users: nothing(alloc),
            booleans: nothing(alloc),
            levels: nothing(alloc),
            categories: nothing(alloc),
            avtab: nothing(alloc),
            condlist: nothing(alloc),
            roletrans: nothing(alloc),
            roleallow: nothing(alloc),
            nametrans: nothing(alloc),
            namegroup: nothing(alloc),
            sid: nothing(alloc),
            fs: nothing(alloc),
            port: nothing(alloc),
            netif: nothing(alloc),
            node: nothing(alloc),
            fsuse: nothing(alloc),
            node6: nothing(alloc),
            ibpkey: nothing(alloc),
            ibendport: nothing(alloc),
            genfs: nothing(alloc),
            rangetrans: nothing(alloc),
            typemap: nothing(alloc),
        })
    }
}

// A list without records.
fn nothing<T: Drop>(alloc: Global) -> OwnedList<T>
    ensures { result ≡ [] }
{
    OwnedList::from_vec(Vec::new(alloc))
}
