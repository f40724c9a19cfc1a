//! The places of a run: the ends of the links, and what the threads do.

use crate::links::MOST_BRICKS;
use crate::side::BrickSide;
use brick_link::{BrickEnd, HubEnd, pair};
use brick_machine::Brick;
use fop_types::Seq;
use graph_build::Plan;
use hub_calls::named_brick;
use script_lang::Script;
use std::alloc::{AllocError, Global};

// The messages for which a ring has room.
const ROOM: usize = 64;

/// What a thread does: it takes the hub's turns, or it owns a brick.
#[derive(Drop)]
pub(crate) enum Post {
    Worker,
    Owner(BrickSide),
}

/// The hub's ends of the links, and what the threads do.
#[derive(Drop)]
pub(crate) struct Places {
    pub(crate) ends: Vec<HubEnd>,
    pub(crate) posts: Vec<Post>,
}

impl Places {
    fn add_end(&mut self, end: HubEnd) -> Result<(), AllocError> {
        self.ends.push(end)?;
        Ok(())
    }

    fn add_post(&mut self, post: Post) -> Result<(), AllocError> {
        self.posts.push(post)?;
        Ok(())
    }

    // Makes the link to a brick, and gives the brick's end of it.
    fn add_link(&mut self, alloc: Global) -> Result<BrickEnd, AllocError> {
        let (hub_end, brick_end) = pair(alloc, ROOM)?;
        let added = self.add_end(hub_end);
        added.and(Ok(brick_end))
    }

    // A brick has an owner, and a link to it.
    fn add_owner(&mut self, alloc: Global, number: u8, brick: Brick) -> Result<(), AllocError> {
        match self.add_link(alloc) {
            Ok(end) => self.add_post(Post::Owner(BrickSide::new(number, brick, end))),
            Err(error) => {
                drop(brick);
                Err(error)
            }
        }
    }

    fn add_owners(
        &mut self,
        alloc: Global,
        script: &Script,
        plans: &[Plan],
    ) -> Result<(), AllocError> {
        let many = script.bricks.len().min(MOST_BRICKS) as u8;
        for number in 0..many {
            let brick = named_brick(alloc, script, plans, number)?;
            self.add_owner(alloc, number, brick)?;
        }
        Ok(())
    }

    fn add_workers(&mut self, workers: u8) -> Result<(), AllocError> {
        for _ in 0..workers.max(1) {
            self.add_post(Post::Worker)?;
        }
        Ok(())
    }

    // Each brick of a script has its owner, and then there are so many workers, one at least.
    fn fill(
        &mut self,
        alloc: Global,
        script: &Script,
        plans: &[Plan],
        workers: u8,
    ) -> Result<(), AllocError> {
        self.add_owners(alloc, script, plans)?;
        self.add_workers(workers)
    }
}

/// The places of a script's bricks and of so many workers.
///
/// # Errors
/// Out of memory.
pub(crate) fn places_of(
    alloc: Global,
    script: &Script,
    plans: &[Plan],
    workers: u8,
) -> Result<Places, AllocError> {
    let mut places = Places {
        ends: Vec::new(alloc),
        posts: Vec::new(alloc),
    };
    let filled = places.fill(alloc, script, plans, workers);
    filled.and(Ok(places))
}

fn add_bricks(bricks: &mut Seq<Brick>, posts: Vec<Post>) -> Result<(), AllocError> {
    for post in posts {
        match post {
            Post::Worker => {}
            Post::Owner(side) => bricks.push(side.into_brick())?,
        }
    }
    Ok(())
}

/// The bricks of the posts.
///
/// # Errors
/// Out of memory.
pub(crate) fn bricks_of(alloc: Global, posts: Vec<Post>) -> Result<Seq<Brick>, AllocError> {
    let mut bricks = Seq::new(alloc);
    let added = add_bricks(&mut bricks, posts);
    added.and(Ok(bricks))
}
