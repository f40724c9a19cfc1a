ghost use Rattle.std.specs.Prelude.{◌≡◌, [], OnOk, OnErr};
ghost use Rattle.std.specs.Ordering.{nat_cmp};
ghost use Rattle.std.specs.List.{list_any};
ghost use Rattle.std.specs.BTreeMap.{is_at};
ghost use Rattle.std.specs.BTreeSet.{insert_key};
ghost use Rattle.std.specs.Set.{remove_key};
ghost use Rattle.brick_machine.specs.Connections.{is_connected as is_connected_in, is_good as is_good_in, with_graph, without_graph, with_fd, without_fd};

use std::alloc::{AllocError, Global};
use std::collections::{BTreeMap, BTreeSet};
use std::marker::Model;

/// The descriptors that are open on a connection. Contracts see them rising.
#[derive(Drop)]
pub struct Fds {
    open: BTreeSet<u32>,
}

impl Model for Fds {
    ghost use Rattle.std.specs.Prelude.{ℕ, List};

    ghost Value = { List ℕ };

    ghost view = { λ f. f.open.keys };
}

impl Fds {
    fn new(alloc: Global) -> Fds
        ensures { result ≡ [] }
    {
        Fds {
            open: BTreeSet::new(alloc),
        }
    }

    fn has(&self, fd: u32) -> bool
        ensures { result ≡ list_any (is_at (nat_cmp fd)) self.now }
    {
        self.open.contains(&fd)
    }

    fn insert(&mut self, fd: u32) -> Result<(), AllocError>
        ensures ok { OnOk result (self.new ≡ insert_key nat_cmp self.old fd) }
        ensures err { OnErr result (self.new ≡ self.old) }
    {
        self.open.insert(fd)?;
        Ok(())
    }

    fn remove(&mut self, fd: u32)
        ensures { self.new ≡ remove_key (is_at (nat_cmp fd)) self.old }
    {
        self.open.remove(&fd);
    }
}

/// The connected graphs, each with its open descriptors. Contracts see them by rising number.
#[derive(Drop)]
pub struct Graphs {
    held: BTreeMap<u32, Fds>,
}

impl Model for Graphs {
    ghost use Rattle.std.specs.Prelude.{ℕ, List};

    ghost Value = { List (ℕ × List ℕ) };

    ghost view = { λ g. g.held.entries };
}

impl Graphs {
    pub(crate) fn new(alloc: Global) -> Graphs
        ensures { result ≡ [] }
    {
        Graphs {
            held: BTreeMap::new(alloc),
        }
    }

    pub(crate) fn is_connected(&self, graph: u32) -> bool
        ensures { result ≡ is_connected_in self.now graph }
    {
        self.held.contains_key(&graph)
    }

    /// Whether a request may name a descriptor: 0 names none, and each other one must be open.
    pub(crate) fn is_good(&self, graph: u32, fd: u32) -> bool
        ensures { result ≡ is_good_in self.now graph fd }
    {
        if fd == 0 {
            return true;
        }
        match self.held.get(&graph) {
            Some(fds) => fds.has(fd),
            None => false,
        }
    }

    /// Connects a graph, without descriptors.
    ///
    /// # Errors
    /// Out of memory, with nothing changed.
    pub(crate) fn connect(&mut self, alloc: Global, graph: u32) -> Result<(), AllocError>
        ensures ok { OnOk result (self.new ≡ with_graph self.old graph) }
        ensures err { OnErr result (self.new ≡ self.old) }
    {
        drop(self.held.insert(graph, Fds::new(alloc))?);
        Ok(())
    }

    pub(crate) fn disconnect(&mut self, graph: u32)
        ensures { self.new ≡ without_graph self.old graph }
    {
        drop(self.held.remove(&graph));
    }

    /// Opens a descriptor on a connection, where the graph is connected.
    ///
    /// # Errors
    /// Out of memory.
    pub(crate) fn open(&mut self, graph: u32, fd: u32) -> Result<(), AllocError>
        ensures { OnOk result (self.new ≡ with_fd self.old graph fd) }
    {
        match self.held.get_mut(&graph) {
            Some(fds) => fds.insert(fd),
            None => Ok(()),
        }
    }

    pub(crate) fn release(&mut self, graph: u32, fd: u32)
        ensures { self.new ≡ without_fd self.old graph fd }
    {
        match self.held.get_mut(&graph) {
            Some(fds) => fds.remove(fd),
            None => {}
        }
    }
}
