//! The pages of an io-cache node: data of files that reads have fetched, kept until a write, a
//! truncate or the end of the graph drops it, or until other pages were used more recently.
//!
//! ```text
//!   most recently used                             least recently used
//!   [ (file 7, page 0) ][ (file 2, page 3) ] .. [ (file 7, page 1) ]     at most `pages`
//!      4,096 bytes         1,200 bytes: file 2 ends in this page
//! ```
//!
//! Page n of a file has its bytes from 4,096 * n on. A page of fewer bytes ends the file, so no page
//! after it is needed. Reading and putting a page take the same time however many pages are held.
//!
//! Called by the graph: it asks for each read, puts the pages that a read has fetched, and drops a file's
//! pages when a write or a truncate begins and when it ends.
#![tactic(auto)]

mod page_cache;
mod page_key;
mod pages;

pub use page_cache::PageCache;
