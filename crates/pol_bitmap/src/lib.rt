//! Bitmaps of the policy format: as they stand in the buffer ([`BitmapView`]), and as sets of bits ([`Set`]), of which equal ones
//! are kept once ([`Pool`]).
//!
//! ```text
//! let view = BitmapView::read(&mut cursor)?;
//! let types = Set::from_view(alloc, &view)?;
//! let both = types.common(alloc, &Set::from_bits(alloc, &[1, 64])?)?;
//! for bit in both.bits() {
//!     print(bit);
//! }
//! write_bitmap(&both, &mut out)?;
//! ```
#![tactic(auto)]

mod bitmap_laws;
mod bits;
mod causes;
mod node;
mod pool;
mod reading;
mod set;
mod set_bits;
mod set_build;
mod set_error;
mod set_laws;
mod set_list;
mod set_ops;
mod set_search;
mod set_write;
mod view;

pub use bitmap_laws::bitmaps_have_laws;
pub use bits::Bits;
pub use node::{Node, split_lowest};
pub use pool::Pool;
pub use set::Set;
pub use set_bits::SetBits;
pub use set_error::SetError;
pub use set_laws::sets_are_their_bits;
pub use set_list::SetList;
pub use set_write::write_bitmap;
pub use view::BitmapView;
