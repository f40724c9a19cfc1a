//! What a cell holds, edited in its place: a file's bytes, an object's mode and attributes, a directory's names.
//!
//! ```text
//!   OrderedContent   new, item, attr, edit      a content that is kept, whose names are found by halves
//!      |
//!   Content      edit_content      what a store op makes of one cell
//!      |
//!   bytes        write_data, resize_data, read             over write_at and resize of a vector
//!   attributes   find_attr, insert_attr, remove_attr       by rising bytes of the name
//!   names        remove_item, rename_item                  beside find_item and insert_item of `fop_types`
//! ```
//!
//! Each is equal to the definition that `fop_types` has of it, and leaves what it edits as it was where memory runs
//! out. A brick's store and the plain program of the flat file system stand on it.
#![tactic(auto)]

mod attrs;
mod edits;
mod file_bytes;
mod halves;
mod names;
mod ordered;

pub use attrs::{find_attr, insert_attr, remove_attr};
pub use edits::{Edit, edit_content, resize_data, write_data};
pub use file_bytes::{read, resize, write_at};
pub use names::{remove_item, rename_item};
pub use ordered::OrderedContent;
