ghost use Rattle.std.specs.Prelude.{◌≡◌, ◌≤◌, ◌<◌, ◌^◌, length, OnOk, OnErr, IfOk};
ghost use Rattle.io_cache.specs.Pages.{no_pages, answer, after_read, put_page, without_file, AreBelow};
ghost use Rattle.io_cache.specs.Uses.{HoldsLastUsed, HoldsMostRecent};

use crate::page_key::PageKey;
use crate::pages::{PAGE, cut, drop_pages, is_past_end, needed_end, use_pages};
use fop_types::{Gfid, Seq};
use lru::LruCache;
use std::alloc::{AllocError, Global};
use std::marker::Model;
use std::num::NonZeroUsize;

/// The held pages. Contracts see them as a list, the most recently used page first, with the greatest
/// number of pages that may be held.
#[derive(Drop)]
pub struct PageCache {
    held: LruCache<PageKey, Seq<u8>>,
    // Each held page has a number below it, so that a file's pages are found by their numbers.
    bound: u64,
}

impl Model for PageCache {
    ghost use Rattle.std.specs.Prelude.{◌≤◌, ◌^◌};
    ghost use Rattle.io_cache.specs.Pages.{Held, held_pages, AreBelow};

    ghost Value = { Held };

    ghost view = { λ c. held_pages c.held.entries c.held.cap };

    ghost invariant = { λ c. record { numbers : AreBelow c.bound c.held.entries; fits : c.bound ≤ 2 ^ 32 } };
}

impl PageCache {
    /// A cache that holds no page yet, and at most `pages` later.
    ///
    /// # Errors
    /// Out of memory.
    pub fn new(alloc: Global, pages: u32) -> Result<PageCache, AllocError>
        requires { 0 < pages }
        ensures { IfOk result (λ c. c ≡ no_pages pages) }
    {
        let capacity = NonZeroUsize::new(pages as usize).unwrap();
        let held = LruCache::sparse(alloc, capacity)?;
        Ok(PageCache { held, bound: 0 })
    }

    /// Holds a page, in place of an earlier one of that number, as the most recently used. Where the
    /// cache was full the least recently used page goes. `bytes` are at most 4,096; fewer say that the
    /// file ends in this page. The cache keeps the allocator that it was made with and grows in it.
    ///
    /// # Errors
    /// Out of memory, and the cache is unchanged.
    pub fn put(
        &mut self,
        _alloc: Global,
        gfid: Gfid,
        page: u32,
        bytes: Seq<u8>,
    ) -> Result<(), AllocError>
        requires { length bytes ≤ 4096 }
        ensures ok { OnOk result (self.new ≡ put_page gfid page bytes self.old) }
        ensures err { OnErr result (self.new ≡ self.old) }
    {
        let bound = self.bound_with(page);
        self.held.put(PageKey { gfid, page }, bytes)?;
        self.bound = bound;
        Ok(())
    }

    /// Reads at most `len` bytes from `offset` on, each at most 65,536. `None` comes exactly where a
    /// page that the read needs is not held: it needs the pages of its range, but none after a held
    /// page of fewer than 4,096 bytes, wherever that is. A read that is answered uses the pages that
    /// it needs, by rising number; one that misses uses none. A read of no bytes needs no page.
    ///
    /// # Errors
    /// Out of memory, and the cache is unchanged.
    pub fn read(
        &mut self,
        alloc: Global,
        gfid: Gfid,
        offset: u32,
        len: u32,
    ) -> Result<Option<Seq<u8>>, AllocError>
        requires offset { offset ≤ 65536 }
        requires len { len ≤ 65536 }
        ensures bytes { IfOk result (λ r. r ≡ answer self.old gfid offset len) }
        ensures used { OnOk result (self.new ≡ after_read self.old gfid offset len) }
        ensures err { OnErr result (self.new ≡ self.old) }
    {
        if len == 0 {
            return Ok(Some(Seq::new(alloc)));
        }
        let first = offset / PAGE;
        if is_past_end(&self.held, gfid, first) {
            return Ok(Some(Seq::new(alloc)));
        }
        let Some(end) = needed_end(&self.held, gfid, first, (offset + len).div_ceil(PAGE)) else {
            return Ok(None);
        };
        let bytes = cut(&self.held, alloc, gfid, first, end, offset % PAGE, len)?;
        use_pages(&mut self.held, gfid, first, end);
        Ok(Some(bytes))
    }

    /// Drops every page of a file. It takes the time of one look-up for each number up to the greatest
    /// that was put since the cache was empty: 17 where offsets are at most 65,536.
    pub fn drop_file(&mut self, gfid: Gfid)
        ensures { self.new ≡ without_file gfid self.old }
    {
        drop_pages(&mut self.held, gfid, self.bound);
    }

    /// Drops every page.
    pub fn clear(&mut self)
        ensures { self.new ≡ no_pages self.old.capacity }
    {
        self.held.clear();
        self.bound = 0;
    }

    /// While no file is dropped, the held pages are the last ones used: after any uses, each a put or a hit
    /// of a page that is held, they are the first of all pages in the order of their last use, as many as
    /// may be held. Pages that are held at the beginning count as used before, in their order. The call
    /// does nothing; it is there for its contract.
    pub fn holds_the_last_used(&self)
        ensures { HoldsLastUsed self.now }
    {
        self.held.len();
    }

    /// Also across drops of files the held pages are the most recently used: after any puts, hits and
    /// drops, they are a prefix of all pages in the order of their last use since they were dropped. There
    /// may be fewer of them than may be held, since a drop does not bring back a page that had to go
    /// before. The call does nothing; it is there for its contract.
    pub fn holds_the_most_recent(&self)
        ensures { HoldsMostRecent self.now }
    {
        self.held.len();
    }

    // The bound once the page is put. It starts anew where no page is held.
    fn bound_with(&self, page: u32) -> u64
        ensures above { page < result }
        ensures below { AreBelow result self.now.pages }
        ensures fits { result ≤ 2 ^ 32 }
        ensures room { (length self.now.pages ≤ self.now.capacity) × (0 < self.now.capacity) }
    {
        let above = page as u64 + 1;
        if self.held.len() == 0 {
            return above;
        }
        self.bound.max(above)
    }
}
