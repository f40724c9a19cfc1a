//! What is done with the pages of one file.
ghost use Rattle.std.specs.Prelude.{◌≡◌, ◌≤◌, ◌<◌, ◌+◌, ◌-◌, ◌^◌, ◌++◌, true, false, length, take, drop, is_some, OnOk, IfOk, IfSome, IsNone};
ghost use Rattle.std.specs.Option.{unwrap_or};
ghost use Rattle.std.specs.List.{range_with_len, flat_map};
ghost use Rattle.io_cache.specs.Pages.{ends_before, needed_of, all_at, page_at, bytes_at, is_short, used, without_pages_below, IsPartOf};

use crate::page_key::PageKey;
use fop_types::{Gfid, Seq};
use lru::LruCache;
use std::alloc::{AllocError, Global};

/// The size of a page that does not end its file, in bytes.
pub(crate) const PAGE: u32 = 4096;

// Whether a page is short, so that it ends its file. `None` comes where the page is not held.
fn ends_file(held: &LruCache<PageKey, Seq<u8>>, gfid: Gfid, page: u32) -> Option<bool>
    ensures here { is_some result ≡ is_some (page_at held.now.entries gfid page) }
    ensures short { unwrap_or result false ≡ is_short held.now.entries gfid page }
{
    let bytes = held.peek(&PageKey { gfid, page })?;
    Some(bytes.len() < PAGE as usize)
}

/// Whether a held page below `number` ends the file.
pub(crate) fn is_past_end(held: &LruCache<PageKey, Seq<u8>>, gfid: Gfid, number: u32) -> bool
    ensures { result ≡ ends_before held.now.entries gfid number }
{
    for page in 0..number {
        if ends_file(held, gfid, page).unwrap_or(false) {
            return true;
        }
    }
    false
}

/// Of the pages from `first` up to `end`, the number after the last that is needed. `None` comes where
/// one that is needed is not held.
pub(crate) fn needed_end(
    held: &LruCache<PageKey, Seq<u8>>,
    gfid: Gfid,
    first: u32,
    end: u32,
) -> Option<u32>
    requires order { first ≤ end }
    requires open { ends_before held.now.entries gfid first ≡ false }
    ensures none { IsNone result → all_at held.now.entries gfid (needed_of held.now.entries gfid (range_with_len first (end - first))) ≡ false }
    ensures order { IfSome result (λ stop. first ≤ stop) }
    ensures needed { IfSome result (λ stop. needed_of held.now.entries gfid (range_with_len first (end - first)) ≡ range_with_len first (stop - first)) }
    ensures held { IfSome result (λ stop. all_at held.now.entries gfid (range_with_len first (stop - first)) ≡ true) }
{
    for page in first..end {
        match ends_file(held, gfid, page) {
            None => return None,
            Some(true) => return Some(page + 1),
            Some(false) => {}
        }
    }
    Some(end)
}

// The bytes of a page without its first `skip`, and of these at most `left`.
fn part_of(page: &[u8], skip: usize, left: usize) -> &[u8]
    ensures { result.now ≡ take left (drop skip page.now) }
{
    let rest = &page[skip.min(page.len())..];
    &rest[..left.min(rest.len())]
}

// Appends what a page gives to a read of which `skip` bytes are still to be passed over and `left` are
// still wanted, and says how many are after it. A page that is not held gives nothing.
fn append_part(
    bytes: &mut Vec<u8>,
    held: &LruCache<PageKey, Seq<u8>>,
    gfid: Gfid,
    page: u32,
    skip: usize,
    left: usize,
) -> Result<(usize, usize), AllocError>
    ensures appended { OnOk result (bytes.new.items ≡ bytes.old.items ++ take left (drop skip (bytes_at held.now.entries gfid page))) }
    ensures skip { IfOk result (λ r. r.0 ≡ skip - length (bytes_at held.now.entries gfid page)) }
    ensures left { IfOk result (λ r. r.1 ≡ left - length (take left (drop skip (bytes_at held.now.entries gfid page)))) }
{
    match held.peek(&PageKey { gfid, page }) {
        Some(whole) => {
            let part = part_of(whole.as_slice(), skip, left);
            bytes.extend_from_slice(part)?;
            Ok((skip.saturating_sub(whole.len()), left - part.len()))
        }
        None => Ok((skip, left)),
    }
}

/// At most `len` bytes of the pages from `first` up to `end`, without the first `skip`.
///
/// # Errors
/// Out of memory.
pub(crate) fn cut(
    held: &LruCache<PageKey, Seq<u8>>,
    alloc: Global,
    gfid: Gfid,
    first: u32,
    end: u32,
    skip: u32,
    len: u32,
) -> Result<Seq<u8>, AllocError>
    requires { first ≤ end }
    ensures { IfOk result (λ b. b ≡ take len (drop skip (flat_map (bytes_at held.now.entries gfid) (range_with_len first (end - first))))) }
{
    let mut bytes = Vec::new(alloc);
    let mut counts = (skip as usize, len as usize);
    for page in first..end {
        counts = append_part(&mut bytes, held, gfid, page, counts.0, counts.1)?;
    }
    Ok(Seq::from_vec(bytes))
}

/// Makes the pages from `first` up to `end` the most recently used, one after the other.
pub(crate) fn use_pages(held: &mut LruCache<PageKey, Seq<u8>>, gfid: Gfid, first: u32, end: u32)
    requires { first ≤ end }
    ensures used { held.new.entries ≡ used gfid (range_with_len first (end - first)) held.old.entries }
    ensures capacity { held.new.cap ≡ held.old.cap }
    ensures part { IsPartOf held.new.entries held.old.entries }
{
    for page in first..end {
        held.promote(&PageKey { gfid, page });
    }
}

/// Drops the file's pages with numbers below `bound`.
pub(crate) fn drop_pages(held: &mut LruCache<PageKey, Seq<u8>>, gfid: Gfid, bound: u64)
    requires { bound ≤ 2 ^ 32 }
    ensures dropped { held.new.entries ≡ without_pages_below gfid bound held.old.entries }
    ensures capacity { held.new.cap ≡ held.old.cap }
    ensures part { IsPartOf held.new.entries held.old.entries }
{
    if held.len() == 0 {
        return;
    }
    for page in 0..bound {
        held.pop(&PageKey {
            gfid,
            page: page as u32,
        });
    }
}
