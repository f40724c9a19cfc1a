//! The layouts of distribute, after cluster/distribute: which set of a distribute volume a name
//! belongs to.
//!
//! A name is hashed to 32 bits. A directory has on each set a range of hashes, or none, and a name
//! belongs to the set whose range holds its hash.
//!
//! ```text
//!   sets                0                   1                   2
//!   ranges    00000000..55555554  55555555..aaaaaaa9  aaaaaaaa..ffffffff     the even split over 3
//!                                  ^ 6222e842, the hash of `fo`: set 1
//! ```
//!
//! Distribute asks for the hashed set of each name that it looks up, makes or moves. A brick keeps the
//! range of its set beside a directory's mode, and shows it as an attribute of 16 bytes. Only the even
//! split allocates.
#![tactic(auto)]

mod attribute;
mod layout;
mod names;

pub use attribute::{read16, write16};
pub use layout::{even, even_span, find};
pub use names::hash;
