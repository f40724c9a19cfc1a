ghost use Rattle.std.specs.Prelude.{◌≡◌};
ghost use Rattle.frame_driver.specs.Wiring.{below};

/// What a child of a node is.
#[derive(Clone, Copy)]
pub enum Child {
    /// The node of this number.
    Node(u16),
    /// Outside of the graph: winds to it are handed out.
    Outside,
    /// The wiring has no such child.
    Nothing,
}

/// Which node is the child of which. `below` has `width` places for each node, in the order of the nodes,
/// one for each child.
#[derive(Drop)]
pub struct Wiring {
    pub width: u16,
    pub below: Vec<Child>,
}

impl Wiring {
    /// What this child of a node is.
    pub fn below(&self, node: u16, child: u16) -> Child
        ensures { result ≡ below self.now node child }
    {
        if child >= self.width {
            return Child::Nothing;
        }
        let at = node as usize * self.width as usize + child as usize;
        match self.below.get(at) {
            Some(found) => *found,
            None => Child::Nothing,
        }
    }
}
