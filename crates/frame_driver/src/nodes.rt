//! The calls of translators, by the number of their node.
ghost use Rattle.std.specs.Prelude.{ℕ, ◌≡◌, ◌<◌, true, length, map, IfOk};
ghost use Rattle.xlator_law.specs.Law.{IsStep};
ghost use Rattle.xlator_law.specs.Law.Cause.{Enter, Reply, Go};
ghost use Rattle.frame_driver.specs.Follows.{promise_at};
ghost use Rattle.frame_driver.specs.Machine.{Makes};

use std::alloc::{AllocError, Global};
use xlator_law::{Entry, Step, Xlator};

pub(crate) fn enter_at<F: Drop, R: Drop, C, X: Xlator<F, R, C>>(
    alloc: Global,
    nodes: &mut Vec<X>,
    cx: &mut C,
    at: u16,
    entry: Entry,
    fop: F,
) -> Result<Step<F, R, X::Local>, AllocError>
    requires at { at < length (map X.promise nodes.old.items) }
    ensures step { IfOk result (λ step. IsStep (promise_at (map X.promise nodes.old.items) at) (Enter entry fop) step) }
    ensures made { IfOk result (λ step. Makes X.makes at (Enter entry fop) step nodes.old.items cx.old nodes.new.items cx.new) }
    ensures same { map X.promise nodes.new.items ≡ map X.promise nodes.old.items }
{
    nodes[at as usize].enter(alloc, cx, entry, fop)
}

pub(crate) fn resume_at<F: Drop, R: Drop, C, X: Xlator<F, R, C>>(
    alloc: Global,
    nodes: &mut Vec<X>,
    cx: &mut C,
    at: u16,
    local: X::Local,
    slot: u8,
    reply: R,
) -> Result<Step<F, R, X::Local>, AllocError>
    requires at { at < length (map X.promise nodes.old.items) }
    requires own { (promise_at (map X.promise nodes.old.items) at).owns local ≡ true }
    requires slot { (promise_at (map X.promise nodes.old.items) at).unanswered local slot ≡ true }
    ensures step { IfOk result (λ step. IsStep (promise_at (map X.promise nodes.old.items) at) (Reply local slot reply) step) }
    ensures made { IfOk result (λ step. Makes X.makes at (Reply local slot reply) step nodes.old.items cx.old nodes.new.items cx.new) }
    ensures same { map X.promise nodes.new.items ≡ map X.promise nodes.old.items }
{
    nodes[at as usize].resume(alloc, cx, local, slot, reply)
}

pub(crate) fn go_on_at<F: Drop, R: Drop, C, X: Xlator<F, R, C>>(
    alloc: Global,
    nodes: &mut Vec<X>,
    cx: &mut C,
    at: u16,
    local: X::Local,
) -> Result<Step<F, R, X::Local>, AllocError>
    requires at { at < length (map X.promise nodes.old.items) }
    requires own { (promise_at (map X.promise nodes.old.items) at).owns local ≡ true }
    requires waits { (promise_at (map X.promise nodes.old.items) at).waits local ≡ true }
    ensures step { IfOk result (λ step. IsStep (promise_at (map X.promise nodes.old.items) at) (Go local) step) }
    ensures made { IfOk result (λ step. Makes X.makes at (Go local) step nodes.old.items cx.old nodes.new.items cx.new) }
    ensures same { map X.promise nodes.new.items ≡ map X.promise nodes.old.items }
{
    nodes[at as usize].go_on(alloc, cx, local)
}
