//! Where a name of a directory is, over the sets of a distribute volume, after cluster/distribute.
//!
//! A file's name is on the set that has the file; a directory's names are on the first set. A name belongs to
//! the set whose range of the directory's layout holds its hash, and mostly it is there. Where it is not, that
//! set may have a link of that name, which names the set that has the file. A link is only a hint: a lookup
//! that finds nothing where it leads reads every set.
//!
//! ```text
//!   sets of the volume     0        1        2        3         the name's hash is in the range of 2
//!
//!   read without a link    2nd      3rd      1st      4th
//!   read with a link to 3  3rd      4th      1st      2nd
//! ```
//!
//! The first set that shows a file or a directory of the name ends the lookup; it finds nothing only once every
//! set was read. Each set is read at most once.
//!
//! [`Lookup`] says which set is read next, as a function of what the sets showed. [`names_job`] and [`names_in`] are
//! the reading of a directory's names on one set: the job, and what its reply shows. The names are searched where
//! they are, and never copied. A caller looks at whether the names show the directory removed before it hands them to
//! the search.
//!
//! What a search knows is a fact about the replies so far (`specs/Known.antt`), so a caller that is handed one reply at a
//! time needs no fixed contents.
//!
//! Called by the operations of distribute (`dht_fops`), and by whoever reads directories set by set.
#![tactic(auto)]

mod found;
mod laws;
mod lookup;
mod names;
mod set_names;
mod sets;

pub use found::{Ended, Found, Next};
pub use laws::{begins_knowing, finds_the_first, keeps_knowing, reads_each_once};
pub use lookup::Lookup;
pub use names::{DirNames, names_in, names_job};
pub use set_names::SetNames;
pub use sets::{hashed_set, is_link};
