//! The connections that are open.
ghost use Rattle.std.specs.Prelude.{◌≡◌, ◌==◌, ◌&&◌, OnOk, IfOk};
ghost use Rattle.line_audit.specs.Linked.{has_link, without_brick, without_link, closed_by, dropped_as, dropped, added_as, added, links_after, all_cut};

use crate::effects::Effect;
use crate::keeping::keep_unless;
use crate::lines_sent::{Item, What, has_disconnect};
use std::alloc::{AllocError, Global};

/// An open connection of a graph to a brick.
#[derive(Clone, Copy)]
pub struct Link {
    pub graph: u32,
    pub brick: u8,
}

// Whether a connection is the graph's to the brick.
fn is_of(link: &Link, graph: u32, brick: u8) -> bool
    ensures { result ≡ ((link.now.graph == graph) && (link.now.brick == brick)) }
{
    link.graph == graph && link.brick == brick
}

/// Whether a graph has an open connection to a brick.
pub fn has_link(links: &[Link], graph: u32, brick: u8) -> bool
    ensures { result ≡ has_link graph brick links.now }
{
    for link in links {
        if link.graph == graph && link.brick == brick {
            return true;
        }
    }
    false
}

fn without_brick(alloc: Global, links: &[Link], brick: u8) -> Result<Vec<Link>, AllocError>
    ensures { IfOk result (λ kept. kept.items ≡ without_brick brick links.now) }
{
    let mut kept = Vec::new(alloc);
    for link in links {
        keep_unless(&mut kept, link.brick == brick, *link)?;
    }
    Ok(kept)
}

fn without_link(
    alloc: Global,
    links: &[Link],
    graph: u32,
    brick: u8,
) -> Result<Vec<Link>, AllocError>
    ensures { IfOk result (λ kept. kept.items ≡ without_link graph brick links.now) }
{
    let mut kept = Vec::new(alloc);
    for link in links {
        keep_unless(&mut kept, is_of(link, graph, brick), *link)?;
    }
    Ok(kept)
}

fn close(alloc: Global, links: &mut Vec<Link>, effect: Effect) -> Result<(), AllocError>
    ensures { OnOk result (links.new.items ≡ closed_by effect links.old.items) }
{
    match effect {
        Effect::Closed(brick) => {
            *links = without_brick(alloc, links.as_slice(), brick)?;
            Ok(())
        }
        _ => Ok(()),
    }
}

fn drop_by(alloc: Global, links: &mut Vec<Link>, brick: u8, what: What) -> Result<(), AllocError>
    ensures { OnOk result (links.new.items ≡ dropped_as brick what links.old.items) }
{
    match what {
        What::Disconnect(graph) => {
            *links = without_link(alloc, links.as_slice(), graph, brick)?;
            Ok(())
        }
        _ => Ok(()),
    }
}

fn drop_all(alloc: Global, links: &mut Vec<Link>, items: &[Item]) -> Result<(), AllocError>
    ensures { OnOk result (links.new.items ≡ dropped items.now links.old.items) }
{
    for item in items {
        drop_by(alloc, links, item.brick, item.what)?;
    }
    Ok(())
}

fn add_by(links: &mut Vec<Link>, brick: u8, what: What) -> Result<(), AllocError>
    ensures { OnOk result (links.new.items ≡ added_as brick what links.old.items) }
{
    match what {
        What::Connect(graph) => {
            links.push(Link { graph, brick })?;
            Ok(())
        }
        _ => Ok(()),
    }
}

fn add_all(links: &mut Vec<Link>, items: &[Item]) -> Result<(), AllocError>
    ensures { OnOk result (links.new.items ≡ added items.now links.old.items) }
{
    for item in items {
        add_by(links, item.brick, item.what)?;
    }
    Ok(())
}

/// An event passes that sends this: connections end, and then others are opened.
///
/// # Errors
/// Out of memory.
pub fn pass_links(
    alloc: Global,
    links: &mut Vec<Link>,
    effect: Effect,
    items: &[Item],
) -> Result<(), AllocError>
    ensures { OnOk result (links.new.items ≡ links_after effect items.now links.old.items) }
{
    close(alloc, links, effect)?;
    drop_all(alloc, links, items)?;
    add_all(links, items)?;
    Ok(())
}

/// Whether each connection to a brick has its Disconnect.
pub fn all_cut(links: &[Link], items: &[Item], brick: u8) -> bool
    ensures { result ≡ all_cut brick items.now links.now }
{
    for link in links {
        if link.brick == brick && !has_disconnect(items, link.graph, brick) {
            return false;
        }
    }
    true
}
