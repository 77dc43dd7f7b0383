//! A field of the format, and its word.

ghost use Rattle.std.specs.Prelude.{◌≡◌, [], map, unwrap_or};
ghost use Rattle.pol_fields.specs.FieldWords.{numbered, record_words};

/// A field of the format, by the code of its record and the number of the part.
#[derive(Clone, Copy, Debug, PartialEq, Eq)]
pub struct Field {
    pub row: u8,
    pub part: u8,
}

impl Field {
    ghost use Rattle.pol_fields.specs.FieldWords.{field_word};

    /// The field's word, as `header.magic`. It is empty for a code that the format does not have.
    pub fn word(&self) -> &'static str
        ensures { result.now ≡ field_word self.now }
    {
        word_numbered(record_words(self.row), self.part)
    }
}

// The word of that number, counted from 1, or the empty text.
fn word_numbered(words: &[&'static str], number: u8) -> &'static str
    ensures { result.now ≡ unwrap_or (numbered (map (λ word. word.now) words.now) number) [] }
{
    if number == 0 {
        return "";
    }
    match words.get(number as usize - 1) {
        None => "",
        Some(word) => word,
    }
}

// The words of a record's fields, in the order of its parts.
#[tactic(auto, using(crate::proofs::FieldTable::record_words_past))]
fn record_words(row: u8) -> &'static [&'static str]
    ensures { map (λ word. word.now) result.now ≡ record_words row }
{
    match row {
        1 => &[
            "header.magic",
            "header.idlen",
            "header.id",
            "header.version",
            "header.config",
            "header.symtabs",
            "header.contexts",
        ],
        2 => &[
            "bitmap.unit",
            "bitmap.highbit",
            "bitmap.count",
            "bitmap.startbit",
            "bitmap.map",
        ],
        3 => &["table.nprim", "table.nel"],
        4 => &["permission.len", "permission.value", "permission.name"],
        5 => &[
            "common.len",
            "common.value",
            "common.nprim",
            "common.nel",
            "common.name",
        ],
        6 => &[
            "class.len",
            "class.len2",
            "class.value",
            "class.nprim",
            "class.nel",
            "class.ncons",
            "class.name",
            "class.common",
            "class.nvalid",
            "class.default_user",
            "class.default_role",
            "class.default_range",
            "class.default_type",
        ],
        7 => &[
            "constraint.permissions",
            "constraint.nexpr",
            "constraint.kind",
            "constraint.attr",
            "constraint.op",
            "constraint.flags",
        ],
        8 => &["role.len", "role.value", "role.bounds", "role.name"],
        9 => &[
            "type.len",
            "type.value",
            "type.properties",
            "type.bounds",
            "type.name",
        ],
        10 => &["user.len", "user.value", "user.bounds", "user.name"],
        11 => &[
            "boolean.value",
            "boolean.state",
            "boolean.len",
            "boolean.name",
        ],
        12 => &[
            "sensitivity.len",
            "sensitivity.isalias",
            "sensitivity.name",
            "sensitivity.sens",
        ],
        13 => &[
            "category.len",
            "category.value",
            "category.isalias",
            "category.name",
        ],
        14 => &["level.sens"],
        15 => &["range.n", "range.low", "range.high"],
        16 => &[
            "av.source",
            "av.target",
            "av.class",
            "av.specified",
            "av.xkind",
            "av.driver",
            "av.bits",
            "av.data",
        ],
        17 => &["avtab.nel"],
        18 => &["condlist.count"],
        19 => &[
            "condnode.state",
            "condnode.nexpr",
            "condnode.kind",
            "condnode.boolean",
            "condnode.ntrue",
            "condnode.nfalse",
        ],
        20 => &[
            "roletrans.count",
            "roletrans.role",
            "roletrans.type",
            "roletrans.newrole",
            "roletrans.class",
        ],
        21 => &["roleallow.count", "roleallow.role", "roleallow.newrole"],
        22 => &[
            "nametrans.count",
            "nametrans.len",
            "nametrans.name",
            "nametrans.source",
            "nametrans.target",
            "nametrans.class",
            "nametrans.default",
        ],
        23 => &[
            "namegroup.count",
            "namegroup.len",
            "namegroup.name",
            "namegroup.target",
            "namegroup.class",
            "namegroup.ndatum",
            "namegroup.default",
        ],
        24 => &["context.user", "context.role", "context.type"],
        25 => &["sid.count", "sid.sid"],
        26 => &["fs.count", "fs.len", "fs.name"],
        27 => &["port.count", "port.protocol", "port.low", "port.high"],
        28 => &["netif.count", "netif.len", "netif.name"],
        29 => &["node.count", "node.address", "node.mask"],
        30 => &["fsuse.count", "fsuse.behaviour", "fsuse.len", "fsuse.name"],
        31 => &["node6.count", "node6.address", "node6.mask"],
        32 => &["ibpkey.count", "ibpkey.prefix", "ibpkey.low", "ibpkey.high"],
        33 => &[
            "ibendport.count",
            "ibendport.len",
            "ibendport.port",
            "ibendport.name",
        ],
        34 => &[
            "genfs.count",
            "genfs.len",
            "genfs.fstype",
            "genfs.npaths",
            "genfs.pathlen",
            "genfs.path",
            "genfs.class",
        ],
        35 => &[
            "rangetrans.count",
            "rangetrans.source",
            "rangetrans.target",
            "rangetrans.class",
        ],
        36 => &["end.end"],
        0 | 37.. => &[],
    }
}
