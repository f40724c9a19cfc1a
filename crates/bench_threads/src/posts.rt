ghost use Rattle.std.specs.Prelude.{◌≡◌, true};
ghost use Rattle.wind_words.specs.declared.view.Role.TheVariants.{Hub};
ghost use Rattle.wind_words.specs.Calls.{IsSamePass};

use crate::winds::{Act, Desk, THREADS, act_on_all, settle_all};
use std::alloc::{AllocError, Global};
use std::thread;
use std::thread::Threads;
use wind_words::{WindPass, WindWords};

// A pass of words that other threads use too.
#[derive(Drop)]
struct Post<'a> {
    words: &'a WindWords,
    pass: WindPass,
    is_hub: bool,
    // For how many winds its last act came first.
    ended: u32,
    ghost of_words: { pass.words ≡ words.now },
    ghost hubs: { is_hub ≡ true → pass.view.role ≡ Hub },
}

impl<'a> Post<'a> {
    fn hub(words: &'a WindWords, pass: WindPass) -> Post<'a>
        requires words { pass.words ≡ words.now }
        requires hub { pass.view.role ≡ Hub }
    {
        Post {
            words,
            pass,
            is_hub: true,
            ended: 0,
        }
    }

    fn reader(words: &'a WindWords, hub: &mut WindPass) -> Post<'a>
        requires { hub.old.words ≡ words.now }
        ensures { IsSamePass hub.old hub.new }
    {
        Post {
            words,
            pass: words.split(hub),
            is_hub: false,
            ended: 0,
        }
    }

    fn act(&mut self, act: Act) {
        if self.is_hub {
            self.ended = act_on_all(self.words, &mut self.pass, act);
        } else {
            self.ended = settle_all(self.words, &mut self.pass);
        }
    }
}

// Three readers' posts and the hub's.
fn four_posts<'a>(
    alloc: Global,
    words: &'a WindWords,
    hub: WindPass,
) -> Result<Vec<Post<'a>>, AllocError>
    requires words { hub.words ≡ words.now }
    requires hub { hub.view.role ≡ Hub }
{
    let mut hub = hub;
    let first = Post::reader(words, &mut hub);
    let second = Post::reader(words, &mut hub);
    let third = Post::reader(words, &mut hub);
    let last = Post::hub(words, hub);
    Ok(vec![in alloc; first, second, third, last]?)
}

// A thread for each post: the hub's does one thing with all winds, and the readers' settle them. It gives for
// how many winds one of them came first.
fn act_together<R: Threads + Sync>(rt: &R, posts: &mut [Post], act: Act) -> u64 {
    thread::for_each_mut(rt, posts, THREADS, &|_, post: &mut Post| post.act(act));
    let mut ended = 0u64;
    for post in posts.iter() {
        ended = ended.saturating_add(u64::from(post.ended));
    }
    ended
}

/// Four threads on the same words: the hub's does one thing with all winds, and three settle them. It gives for how
/// many winds one of them came first.
pub fn act_beside_readers<R: Threads + Sync>(
    rt: &R,
    alloc: Global,
    desk: Desk,
    act: Act,
) -> Result<u64, AllocError> {
    let (words, hub) = desk.into_parts();
    let mut posts = four_posts(alloc, &words, hub)?;
    Ok(act_together(rt, &mut posts, act))
}

/// Three threads settle the same winds that the hub's bails, and then the hub collects them: how many were won,
/// and how many were collected.
pub fn race<R: Threads + Sync>(rt: &R, alloc: Global) -> Result<(u64, u64), AllocError> {
    let (words, hub) = Desk::prepared(alloc, Act::Bail)?.into_parts();
    let mut posts = four_posts(alloc, &words, hub)?;
    let won = act_together(rt, &mut posts, Act::Bail);
    let collected = act_together(rt, &mut posts, Act::Collect);
    Ok((won, collected))
}
