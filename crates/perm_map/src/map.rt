// The permission map.
ghost use Rattle.text_rows.specs.declared.limits.TheConstants.{MAX_TEXT_BYTES};
ghost use Rattle.std.specs.Prelude.{◌≡◌, ◌≤◌, [], length, OnOk};
ghost use Rattle.perm_map.specs.PermissionMap.{IsMap, entry_of, map_of, weights_of};
ghost use Rattle.perm_map.specs.Inner.MapReading.{with_entry};
ghost use Rattle.perm_map.specs.Inner.RowViews.{permission_line_of};

use crate::classes::read_classes;
use crate::direction::Direction;
use crate::lines::PermissionLine;
use crate::map_fault::{MapCause, MapError, MapFault};
use indexmap::IndexMap;
use std::alloc::{AllocError, Global};
use std::marker::Model;
use text_rows::Rows;

/// The names of a class and of a permission.
#[derive(Clone, Copy, PartialEq, Eq, Hash)]
pub struct Key<'a> {
    class: &'a [u8],
    permission: &'a [u8],
}

/// A permission map. Contracts see a list of entries, of which the last one for a class and a permission decides their direction and
/// weight.
///
/// The names are those of the bytes that were read; none is copied.
#[derive(Drop)]
pub struct PermMap<'a> {
    weights: IndexMap<Key<'a>, (Direction, u8)>,
}

impl<'a> Model for PermMap<'a> {
    ghost use Rattle.std.specs.Prelude.{List};
    ghost use Rattle.perm_map.specs.PermissionMap.{Entry};
    ghost use Rattle.perm_map.specs.Inner.KeyedWeights.{entries_kept};

    ghost Value = { List Entry };

    ghost view = { λ m. entries_kept m.weights.entries };
}

impl<'a> PermMap<'a> {
    /// The map with no entry.
    pub(crate) fn new(alloc: Global) -> PermMap<'a>
        ensures { result ≡ [] }
    {
        PermMap {
            weights: IndexMap::new(alloc),
        }
    }

    /// Adds the entry of a line.
    pub(crate) fn add(
        &mut self,
        class: &'a [u8],
        line: PermissionLine<'a>,
    ) -> Result<(), AllocError>
        ensures { OnOk result (weights_of self.new ≡ with_entry (weights_of self.old) (entry_of class.now (permission_line_of line.entry))) }
    {
        let key = Key {
            class,
            permission: line.name,
        };
        self.weights.insert(key, (line.direction, line.weight))?;
        Ok(())
    }

    /// Reads a permission map, or answers the fault of its first faulty line.
    ///
    /// A class with too few lines, and a map with too few classes, lacks one at the line past its last one, blank lines and comments
    /// counted. After the last class the first line with fields is too many.
    pub fn read(alloc: Global, bytes: &'a [u8]) -> Result<PermMap<'a>, MapError>
        requires { length bytes.now ≤ MAX_TEXT_BYTES }
        ensures { IsMap (map_of bytes.now) result }
    {
        let mut rows = Rows::new(bytes);
        let mut map = PermMap::new(alloc);
        read_classes(&mut rows, &mut map)?;
        match rows.next() {
            Ok(row) => Err(MapError::Fault(MapFault {
                line: row.number,
                cause: MapCause::Extra,
            })),
            Err(_) => Ok(map),
        }
    }

    /// The direction and the weight, 1 to 10, of a class's permission. `None` exactly where no line of the map is for them.
    pub fn weight(&self, class: &[u8], permission: &[u8]) -> Option<(Direction, u8)>
        ensures { result ≡ weights_of self.now class.now permission.now }
    {
        let key = Key { class, permission };
        self.weights.get(&key).copied()
    }
}
