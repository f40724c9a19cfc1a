//! What is known of connections before an event.
ghost use Rattle.std.specs.Prelude.{◌≡◌, [], OnOk, IfOk};
ghost use Rattle.line_audit.specs.Linked.{links_after, without_number, closed_after};

use crate::effects::Effect;
use crate::keeping::keep_unless;
use crate::lines_sent::Item;
use crate::links::{Link, pass_links};
use std::alloc::{AllocError, Global};

/// The connections that are open, the bricks that are known to be closed, and the newest graph.
#[derive(Drop)]
pub struct Known {
    pub links: Vec<Link>,
    pub closed: Vec<u8>,
    pub newest: u32,
}

fn without_number(alloc: Global, numbers: &[u8], number: u8) -> Result<Vec<u8>, AllocError>
    ensures { IfOk result (λ kept. kept.items ≡ without_number number numbers.now) }
{
    let mut kept = Vec::new(alloc);
    for one in numbers {
        keep_unless(&mut kept, *one == number, *one)?;
    }
    Ok(kept)
}

fn pass_closed(alloc: Global, closed: &mut Vec<u8>, effect: Effect) -> Result<(), AllocError>
    ensures { OnOk result (closed.new.items ≡ closed_after effect closed.old.items) }
{
    match effect {
        Effect::Closed(brick) => {
            closed.push(brick)?;
            Ok(())
        }
        Effect::Opened(brick) => {
            *closed = without_number(alloc, closed.as_slice(), brick)?;
            Ok(())
        }
        _ => Ok(()),
    }
}

impl Known {
    /// Before the hub's making nothing is connected or closed, and graph 1 is to be made. It takes no memory.
    pub fn new(alloc: Global) -> Known
        ensures links { result.links.items ≡ [] }
        ensures closed { result.closed.items ≡ [] }
        ensures newest { result.newest ≡ 1 }
    {
        Known {
            links: Vec::new(alloc),
            closed: Vec::new(alloc),
            newest: 1,
        }
    }

    /// An event passes that sends this, behind which a graph is the newest.
    ///
    /// # Errors
    /// Out of memory.
    pub fn pass(
        &mut self,
        alloc: Global,
        effect: Effect,
        newest: u32,
        items: &[Item],
    ) -> Result<(), AllocError>
        ensures links { OnOk result (self.new.links.items ≡ links_after effect items.now self.old.links.items) }
        ensures closed { OnOk result (self.new.closed.items ≡ closed_after effect self.old.closed.items) }
        ensures newest { OnOk result (self.new.newest ≡ newest) }
    {
        pass_links(alloc, &mut self.links, effect, items)?;
        pass_closed(alloc, &mut self.closed, effect)?;
        self.newest = newest;
        Ok(())
    }
}
