//! The io-cache node: a read of which all pages are held is answered at once; any other asks below for whole pages, keeps
//! those that come back, and is answered from them alone. All else passes.
ghost use Rattle.std.specs.Prelude.{◌≡◌, ◌≤◌, ◌<◌, ◌+◌, ◌-◌, IfOk, IfSome, OnOk, length, take, drop, nat_lt};
ghost use Rattle.std.specs.List.{range_with_len};
ghost use Rattle.fop_types.specs.Bounds.{IsFop, IsObject, IsOpenFd};
ghost use Rattle.graph_nodes.specs.Caching.{retired};
ghost use Rattle.graph_nodes.specs.IoCache.{IsRead, EntersBy, IsEntered, PagesCome, IsAnswered, asked_for, hit_or_miss, read_in, range_in, bytes_in, put_of, kept, kept_by};
ghost use Rattle.graph_nodes.specs.Moves.{IsMove};
ghost use Rattle.graph_nodes.specs.Pages.{IsRange, start_of, pages_of, page_bytes, answer_of};

use crate::kinds::IoCache;
use crate::locals::{Local, PageRange, PageRead};
use crate::nodes::one;
use fop_types::{Answer, Fop, FopAnswer, Object, Seq};
use graph_items::{Down, FileOp, Up};
use io_cache::PageCache;
use std::alloc::{AllocError, Global};
use xlator_law::Step;

const PAGE: u32 = 4096;

// The greatest offset of a file.
const MOST_BYTES: u32 = 65536;

// The place of a page's first byte, and at most the greatest offset.
#[tactic(auto, unfolding(crate::specs::Pages::start_of))]
fn start_of(page: u32) -> u32
    requires { page ≤ 33 }
    ensures is { result ≡ start_of page }
    ensures most { result ≤ 65536 }
{
    let start = page * PAGE;
    if start <= MOST_BYTES {
        start
    } else {
        MOST_BYTES
    }
}

// How many bytes there are from the first one of a page to the first one of a later page.
#[tactic(auto, using(crate::proofs::PageTurns::starts_rise, crate::proofs::PageTurns::starts_near))]
fn between(from: u32, to: u32) -> u32
    requires order { from ≤ to }
    requires within { to ≤ 33 }
    ensures is { result ≡ start_of to - start_of from }
    ensures most { result ≤ 65536 }
    ensures near { to ≤ from + 1 → result ≤ 4096 }
{
    let start = start_of(from);
    start_of(to) - start
}

// So many of the bytes from one place on, as far as there are so many.
fn part(bytes: &[u8], from: usize, len: usize) -> &[u8]
    ensures is { result.now ≡ take len (drop from bytes.now) }
    ensures few { length result.now ≤ len }
{
    let rest = &bytes[from.min(bytes.len())..];
    &rest[..len.min(rest.len())]
}

// The pages of a read.
fn pages_of(object: Object, offset: u32, count: u32) -> PageRead
    requires offset { offset ≤ 65536 }
    requires count { count ≤ 65536 }
    ensures { result ≡ pages_of object offset count }
{
    PageRead::new(PageRange {
        gfid: object.gfid,
        first: offset / PAGE,
        end: (offset + count + (PAGE - 1)) / PAGE,
        offset,
        count,
    })
}

// The bytes of a page of the range among those that came back.
fn page_of(range: PageRange, bytes: &[u8], page: u32) -> &[u8]
    requires within { IsRange range }
    requires first { range.first ≤ page }
    requires end { page < range.end }
    ensures is { result.now ≡ page_bytes range bytes.now page }
    ensures few { length result.now ≤ 4096 }
{
    let from = between(range.first, page);
    let len = between(page, page + 1);
    part(bytes, from as usize, len as usize)
}

// What the read is answered, of the bytes that came back.
#[tactic(auto, using(crate::proofs::PageTurns::starts_before))]
fn answer_of(range: PageRange, bytes: &[u8]) -> &[u8]
    requires { IsRange range }
    ensures { result.now ≡ answer_of range bytes.now }
{
    let skip = range.offset - start_of(range.first);
    part(bytes, skip as usize, range.count as usize)
}

// Keeps a page that came back, and says whether it is a short one.
fn keep_page(
    pages: &mut PageCache,
    alloc: Global,
    range: PageRange,
    bytes: &[u8],
    page: u32,
) -> Result<bool, AllocError>
    requires within { IsRange range }
    requires first { range.first ≤ page }
    requires end { page < range.end }
    ensures short { IfOk result (λ short. short ≡ nat_lt (length (page_bytes range bytes.now page)) 4096) }
    ensures kept { OnOk result (pages.new ≡ put_of range bytes.now page pages.old) }
{
    let part = page_of(range, bytes, page);
    let short = part.len() < PAGE as usize;
    let kept = Seq::<u8>::from_bytes(alloc, part)?;
    pages.put(alloc, range.gfid, page, kept)?;
    Ok(short)
}

// Keeps the pages that came back, by rising number up to the first short one.
#[tactic(auto, using(crate::proofs::PageTurns::kept_next, crate::proofs::PageTurns::kept_last, crate::proofs::PageTurns::kept_past))]
fn keep_pages(
    pages: &mut PageCache,
    alloc: Global,
    range: PageRange,
    bytes: &[u8],
) -> Result<(), AllocError>
    requires { IsRange range }
    ensures { OnOk result (pages.new ≡ kept range bytes.now (range_with_len range.first (range.end - range.first)) pages.old) }
{
    for page in range.first..range.end {
        let short = keep_page(pages, alloc, range, bytes, page)?;
        if short {
            return Ok(());
        }
    }
    Ok(())
}

// The answer from the pages, or what is asked for below.
fn hit_or_miss(
    alloc: Global,
    fd: u32,
    object: Object,
    offset: u32,
    count: u32,
    found: Option<Seq<u8>>,
) -> Result<Step<Down, Up, Local>, AllocError>
    requires bounded { IsFop (Fop.Read fd object offset count) }
    ensures { IfOk result (λ step. IsMove (hit_or_miss fd object offset count found) step) }
{
    match found {
        Some(bytes) => Ok(Step::Unwind(Up::Answer(FopAnswer::Call(Answer::Bytes(bytes)), None))),
        None => {
            let read = pages_of(object, offset, count);
            let op = asked_for(fd, object, read.range());
            one(alloc, 0, Down::Fop(op), Local::Pages(read))
        }
    }
}

// The read of whole pages.
fn asked_for(fd: u32, object: Object, range: PageRange) -> FileOp
    requires fd { IsOpenFd fd }
    requires object { IsObject object }
    requires within { IsRange range }
    ensures { result ≡ asked_for fd object range }
{
    FileOp::new(Fop::Read {
        fd,
        object,
        offset: start_of(range.first),
        count: between(range.first, range.end),
    })
}

// The read for whose pages a frame has asked.
fn range_in(local: &Local) -> Option<PageRange>
    ensures is { result ≡ range_in local.now }
    ensures within { IfSome result IsRange }
{
    match local {
        Local::Pages(read) => Some(read.range()),
        Local::Relay => None,
        Local::Queued(_) => None,
        Local::Distribute(_) => None,
        Local::Set(_) => None,
    }
}

impl IoCache {
    /// Takes what comes from above.
    ///
    /// # Errors
    /// Out of memory.
    pub(crate) fn enter(
        &mut self,
        alloc: Global,
        down: Down,
    ) -> Result<Step<Down, Up, Local>, AllocError>
        ensures { IfOk result (λ step. IsEntered self.old down step self.new) }
    {
        match down {
            Down::Fop(op) => self.enter_fop(alloc, op),
            Down::Job(job) => one(alloc, 0, Down::Job(job), Local::Relay),
            Down::Request(request) => one(alloc, 0, Down::Request(request), Local::Relay),
        }
    }

    // A read is looked up; any other fop passes. A fop is within its bounds by its type.
    fn enter_fop(&mut self, alloc: Global, op: FileOp) -> Result<Step<Down, Up, Local>, AllocError>
        ensures { IfOk result (λ step. EntersBy (read_in op) self.old (Down.Fop op) step self.new) }
    {
        match op.into_fop() {
            Fop::Read {
                fd,
                object,
                offset,
                count,
            } => self.read(alloc, fd, object, offset, count),
            other => {
                let step = one(alloc, 0, Down::Fop(FileOp::new(other)), Local::Relay)?;
                Ok(step)
            }
        }
    }

    // A read is answered from the pages, or asks for them.
    fn read(
        &mut self,
        alloc: Global,
        fd: u32,
        object: Object,
        offset: u32,
        count: u32,
    ) -> Result<Step<Down, Up, Local>, AllocError>
        requires bounded { IsFop (Fop.Read fd object offset count) }
        ensures { IfOk result (λ step. IsRead self.old fd object offset count step self.new) }
    {
        let found = self.pages.read(alloc, object.gfid, offset, count)?;
        hit_or_miss(alloc, fd, object, offset, count, found)
    }

    /// Takes the reply of what was handed on.
    ///
    /// # Errors
    /// Out of memory.
    pub(crate) fn resume(
        &mut self,
        alloc: Global,
        local: Local,
        reply: Up,
    ) -> Result<Step<Down, Up, Local>, AllocError>
        ensures { IfOk result (λ step. IsAnswered self.old local reply step self.new) }
    {
        let asked = range_in(&local);
        drop(local);
        match asked {
            Some(range) => self.take_pages(alloc, range, reply),
            None => Ok(Step::Unwind(reply)),
        }
    }

    // The bytes that came back are kept; any other reply passes.
    fn take_pages(
        &mut self,
        alloc: Global,
        range: PageRange,
        reply: Up,
    ) -> Result<Step<Down, Up, Local>, AllocError>
        requires { IsRange range }
        ensures { IfOk result (λ step. PagesCome (bytes_in reply) self.old range reply step self.new) }
    {
        match reply {
            Up::Answer(answer, place) => self.take_answer(alloc, range, answer, place),
            other => Ok(Step::Unwind(other)),
        }
    }

    fn take_answer(
        &mut self,
        alloc: Global,
        range: PageRange,
        answer: FopAnswer,
        place: Option<u32>,
    ) -> Result<Step<Down, Up, Local>, AllocError>
        requires { IsRange range }
        ensures { IfOk result (λ step. PagesCome (bytes_in (Up.Answer answer place)) self.old range (Up.Answer answer place) step self.new) }
    {
        match answer {
            FopAnswer::Call(call) => self.take_call(alloc, range, call, place),
            other => Ok(Step::Unwind(Up::Answer(other, place))),
        }
    }

    fn take_call(
        &mut self,
        alloc: Global,
        range: PageRange,
        answer: Answer,
        place: Option<u32>,
    ) -> Result<Step<Down, Up, Local>, AllocError>
        requires { IsRange range }
        ensures { IfOk result (λ step. PagesCome (bytes_in (Up.Answer (FopAnswer.Call answer) place)) self.old range (Up.Answer (FopAnswer.Call answer) place) step self.new) }
    {
        match answer {
            Answer::Bytes(bytes) => {
                let cut = self.cut(alloc, range, bytes.as_slice())?;
                Ok(Step::Unwind(Up::Answer(FopAnswer::Call(Answer::Bytes(cut)), place)))
            }
            other => Ok(Step::Unwind(Up::Answer(FopAnswer::Call(other), place))),
        }
    }

    // The answer of a read, cut from the bytes that came back, whose pages are kept.
    fn cut(&mut self, alloc: Global, range: PageRange, bytes: &[u8]) -> Result<Seq<u8>, AllocError>
        requires { IsRange range }
        ensures answer { IfOk result (λ answer. answer ≡ answer_of range bytes.now) }
        ensures kept { OnOk result (self.new ≡ kept_by self.old range bytes.now) }
    {
        self.keep(alloc, range, bytes)?;
        let answer = Seq::<u8>::from_bytes(alloc, answer_of(range, bytes))?;
        Ok(answer)
    }

    // Keeps the pages that came back. A retired node keeps none.
    fn keep(&mut self, alloc: Global, range: PageRange, bytes: &[u8]) -> Result<(), AllocError>
        requires { IsRange range }
        ensures { OnOk result (self.new ≡ kept_by self.old range bytes.now) }
    {
        if self.retired {
            return Ok(());
        }
        keep_pages(&mut self.pages, alloc, range, bytes)?;
        Ok(())
    }

    /// Drops all pages, and keeps none from now on.
    pub(crate) fn retire(&mut self)
        ensures { self.new ≡ retired self.old }
    {
        self.pages.clear();
        self.retired = true;
    }
}
