//! The contexts of the files of file systems that have no labels of their own, by their paths (genfs).
//!
//! ```text
//! let systems = read_genfs(alloc, &mut cursor, version)?;
//! let proc = systems.view(0);
//! for entry in proc.paths() {
//!     print(entry.path(), entry.class(), entry.context());
//! }
//! ```
#![tactic(auto)]

mod genfs_list;
mod genfs_path_view;
mod genfs_reading;
mod genfs_rec;
mod genfs_view;
mod genfs_write;
mod laws;

pub use genfs_list::{GenfsList, read_genfs};
pub use genfs_path_view::{GenfsPath, GenfsPathView};
pub use genfs_reading::read_genfs_entry;
pub use genfs_rec::{GenfsPathRec, GenfsPathRecList, GenfsRec, GenfsRecList};
pub use genfs_view::{Genfs, GenfsView};
pub use laws::genfs_have_laws;
pub use pol_cursor::write_record as write_genfs;
