//! Cases of the tables of the mount, of its caches and queues, and of what a switch asks: each a list of steps with the
//! answers that must come. The library is empty.
#![tactic(auto)]

// fd_table
#[cfg(test)]
mod descriptors;
// mount_locks
#[cfg(test)]
mod holds;
// inode_table
#[cfg(test)]
mod inodes;
// io_cache
#[cfg(test)]
mod pages;
// io_threads
#[cfg(test)]
mod queues;
// graph_switch
#[cfg(test)]
mod switches;
