ghost use Rattle.std.specs.Prelude.{ℕ, ◌≡◌, ◌∷◌, ◌<◌, ◌≤◌, ◌+◌, ◌*◌, ◌^◌, ◌==◌, ◌||◌, ◌↔◌, [], length, vec_len, vec_capacity, None, Some, true, false, is_some, IsSome, IfSome, IsSomeAnd, IsTrue, OnOk, OnErr, IfOk, IsErrOf, MatchOption};
ghost use Rattle.xlator_law.specs.declared.winds.WindNo.{WindNo};
ghost use Rattle.frame_stack.specs.Cells.{taken, put_at, IsInserted};
ghost use Rattle.frame_stack.specs.Changes.{with_kept, ChangesFrame, ChangesOpener, KeepsWinds};
ghost use Rattle.frame_stack.specs.Reached.{IsReached, Leads, opening, ended_by};
ghost use Rattle.frame_stack.specs.Stack.{empty_stack, opener_at, frame_at, word_at, word_of, frame, begun, HasParent, place_at, local_at, with_local, without_frame, awaits, HasNoWind, AwaitsMore, AwaitsLess, opener_of, parent_of, IsWound, settled_as, after_settle, resumed_as, after_resume, pending, replied};

use crate::frame::{Frame, Opener};
use crate::keyed::Keyed;
use crate::words::{open_word, word_in};
use std::alloc::{AllocError, Global};
use std::marker::Model;
use std::mem;
use xlator_law::{Parent, Place, Settled, Stop, WindNo};

/// The open frames of all graphs of a mount, and the winds that they opened. `L` is what a frame keeps
/// while it waits.
///
/// Contracts see the frames by number, the opener and the word of each slot, how many winds were opened,
/// and the lines that were not handed over yet. A word is `turn * 4`, and 1 more while its wind is
/// pending, or 2 more once it is replied.
#[derive(Drop)]
pub struct FrameStack<L> {
    frames: Keyed<Frame<L>>,
    openers: Keyed<Opener>,
    words: Vec<u64>,
    opened: u32,
    lines: Vec<(WindNo, u32, bool)>,
}

impl<L> Model for FrameStack<L> {
    ghost use Rattle.frame_stack.specs.Stack.{Stack};
    ghost use Rattle.frame_stack.specs.Sound.{AreKept};

    ghost Value = { Stack L };

    ghost view = { λ s. record {
      frames = s.frames;
      openers = s.openers;
      words = s.words.items;
      opened = s.opened;
      lines = s.lines.items;
    } };

    ghost invariant = { λ s. AreKept s.openers s.words.items s.opened };
}

#[tactic(auto, using(crate::proofs::Leads::leads_new, crate::proofs::Leads::leads_open, crate::proofs::Leads::leads_wind, crate::proofs::Leads::leads_lines, crate::proofs::Leads::leads_settle, crate::proofs::Leads::leads_resume, crate::proofs::Leads::leads_local, crate::proofs::Leads::leads_free))]
impl<L> FrameStack<L> {
    /// No frames and no winds, which takes no memory.
    pub fn new(alloc: Global) -> FrameStack<L>
        ensures empty { result ≡ empty_stack }
        ensures started { IsReached result [] [] }
    {
        FrameStack {
            frames: Keyed::new(alloc),
            openers: Keyed::new(alloc),
            words: Vec::new(alloc),
            opened: 0,
            lines: Vec::new(alloc),
        }
    }

    /// Opens a frame and gives its number, which is that of no open frame. `parent` is the wind that
    /// opened it, which is open itself, in the same graph and of the same call; a call's own fop has none.
    /// Fewer than 4,294,967,295 frames are open.
    ///
    /// # Errors
    /// Out of memory, and nothing changed.
    pub fn open(
        &mut self,
        _alloc: Global,
        graph: u32,
        call: u32,
        node: u16,
        parent: Option<WindNo>,
        local: L,
    ) -> Result<u32, AllocError>
    where
        L: Drop,
        requires room { taken self.old.frames < 4294967295 }
        requires parent { HasParent self.old graph call parent }
        ensures opened { IfOk result (λ key. IsInserted self.old.frames self.new.frames key (frame graph call node parent local)) }
        ensures rest { OnOk result (self.new ≡ record self.old { frames = self.new.frames }) }
        ensures frames { IfOk result (λ key. ChangesFrame self.old self.new key (Some (frame graph call node parent local))) }
        ensures winds { OnOk result (KeepsWinds self.old self.new) }
        ensures taken { OnOk result (taken self.new.frames ≡ taken self.old.frames + 1) }
        ensures leads { OnOk result (Leads self.old self.new [] []) }
        ensures err { OnErr result (self.new ≡ self.old) }
    {
        let place = Place {
            graph,
            call,
            node,
            parent,
        };
        let key = self.insert(place, Some(local))?;
        Ok(key)
    }

    /// Opens a frame whose local is still to come, and gives its number, so that its node has the number
    /// for its first step: [`FrameStack::put`] gives the frame a local then, or [`FrameStack::free`] ends
    /// it. All else is as for [`FrameStack::open`].
    ///
    /// # Errors
    /// Out of memory, and nothing changed.
    pub fn begin(
        &mut self,
        _alloc: Global,
        graph: u32,
        call: u32,
        node: u16,
        parent: Option<WindNo>,
    ) -> Result<u32, AllocError>
    where
        L: Drop,
        requires room { taken self.old.frames < 4294967295 }
        requires parent { HasParent self.old graph call parent }
        ensures opened { IfOk result (λ key. IsInserted self.old.frames self.new.frames key (begun graph call node parent)) }
        ensures rest { OnOk result (self.new ≡ record self.old { frames = self.new.frames }) }
        ensures frames { IfOk result (λ key. ChangesFrame self.old self.new key (Some (begun graph call node parent))) }
        ensures winds { OnOk result (KeepsWinds self.old self.new) }
        ensures taken { OnOk result (taken self.new.frames ≡ taken self.old.frames + 1) }
        ensures leads { OnOk result (Leads self.old self.new [] []) }
        ensures err { OnErr result (self.new ≡ self.old) }
    {
        let place = Place {
            graph,
            call,
            node,
            parent,
        };
        let key = self.insert(place, None)?;
        Ok(key)
    }

    fn insert(&mut self, place: Place, local: Option<L>) -> Result<u32, AllocError>
    where
        L: Drop,
        requires room { taken self.old.frames < 4294967295 }
        requires parent { HasParent self.old place.graph place.call place.parent }
        ensures opened { IfOk result (λ key. IsInserted self.old.frames self.new.frames key (record { place = place; local = local })) }
        ensures rest { OnOk result (self.new ≡ record self.old { frames = self.new.frames }) }
        ensures frames { IfOk result (λ key. ChangesFrame self.old self.new key (Some (record { place = place; local = local }))) }
        ensures winds { OnOk result (KeepsWinds self.old self.new) }
        ensures taken { OnOk result (taken self.new.frames ≡ taken self.old.frames + 1) }
        ensures leads { OnOk result (Leads self.old self.new [] []) }
        ensures err { OnErr result (self.new ≡ self.old) }
    {
        let key = self.frames.insert(Frame { place, local })?;
        Ok(key)
    }

    /// Whether a further frame and a further wind may be opened: fewer than 4,294,967,295 frames and fewer
    /// than 2,147,483,648 winds are open.
    pub fn has_room(&self) -> bool
        ensures { IsTrue result ↔ ((taken self.now.frames < 4294967295) × (taken self.now.openers < 2147483648)) }
    {
        self.frames.len() < 4294967295 && self.openers.len() < 2147483648
    }

    /// Opens a wind of an open frame in one of its slots, in which it has no open wind. Fewer than
    /// 2,147,483,648 winds are open. The number was never given before. Its slot is one whose wind was
    /// resumed, where there is such a slot, and else the next new one; it is below 2,147,483,648.
    ///
    /// # Errors
    /// `Winds` exactly where this stack has opened 4,294,967,295 winds; else out of memory. Nothing
    /// changed.
    pub fn wind(&mut self, _alloc: Global, frame: u32, slot: u8) -> Result<WindNo, Stop>
        requires open { IsSome (frame_at self.old frame) }
        requires slot { awaits self.old frame slot ≡ false }
        requires room { taken self.old.openers < 2147483648 }
        ensures wound { IfOk result (λ w. IsWound self.old self.new frame slot w) }
        ensures leads { IfOk result (λ w. Leads self.old self.new (opening w (opener_at self.old frame slot) ∷ []) []) }
        ensures awaits { OnOk result (AwaitsMore self.old self.new frame slot) }
        ensures pending { IfOk result (λ w. word_at self.new w.slot ≡ pending w) }
        ensures taken { OnOk result (taken self.new.openers ≡ taken self.old.openers + 1) }
        ensures frames { OnOk result (self.new.frames ≡ self.old.frames) }
        ensures openers { IfOk result (λ w. ChangesOpener self.old self.new w (Some (opener_at self.old frame slot))) }
        ensures winds { IsErrOf result Stop.Winds ↔ (self.old.opened ≡ 4294967295) }
        ensures err { OnErr result (self.new ≡ self.old) }
    {
        if self.opened == u32::MAX {
            return Err(Stop::Winds);
        }
        let Some(found) = self.frames.get(frame) else {
            unreachable!()
        };
        let opener = Opener {
            frame,
            slot,
            graph: found.place.graph,
            call: found.place.call,
            number: self.opened,
        };
        self.lines.reserve(1)?;
        self.words.reserve(1)?;
        let slot = self.openers.insert(opener)?;
        let turn = open_word(&mut self.words, slot as usize);
        let wind = WindNo { slot, turn };
        self.lines.push_reserved((wind, opener.call, true));
        self.opened += 1;
        Ok(wind)
    }

    /// The winds opened (`true`) and resumed (`false`) since the last `lines`, in order, each with the
    /// call of the frame that opened it. It hands its list over and takes no memory.
    pub fn lines(&mut self) -> Vec<(WindNo, u32, bool)>
        ensures lines { result.items ≡ self.old.lines }
        ensures rest { self.new ≡ record self.old { lines = [] } }
        ensures leads { Leads self.old self.new [] self.old.lines }
    {
        let alloc = *self.lines.allocator();
        mem::replace(&mut self.lines, Vec::new(alloc))
    }

    /// Ends the waiting of a wind for its reply. `Won` comes exactly where the wind was pending, so once
    /// for each wind; `Lost` carries the word that was seen, and nothing changed. A slot that was never
    /// opened has the word 0.
    pub fn settle(&mut self, w: WindNo) -> Settled
        ensures settled { result ≡ settled_as self.old w }
        ensures after { self.new ≡ after_settle self.old w }
        ensures frames { self.new.frames ≡ self.old.frames }
        ensures slots { self.new.openers ≡ self.old.openers }
        ensures openers { (v : WindNo) → opener_of self.new v ≡ opener_of self.old v }
        ensures leads { Leads self.old self.new [] [] }
    {
        let word = word_in(&self.words, w.slot);
        if word != w.turn as u64 * 4 + 1 {
            return Settled::Lost(word);
        }
        self.words[w.slot as usize] = word + 1;
        Settled::Won
    }

    /// The word of a slot, 0 where the slot was never opened.
    pub fn word(&self, slot: u32) -> u64
        ensures { result ≡ word_at self.now slot }
    {
        word_in(&self.words, slot)
    }

    /// Ends a settled wind, and gives the frame and slot that opened it. `None` comes exactly where the
    /// wind is not settled or was resumed, and then nothing changed. The slot goes to its next turn.
    ///
    /// # Errors
    /// Out of memory, and nothing changed.
    pub fn resume(&mut self, _alloc: Global, w: WindNo) -> Result<Option<Parent>, AllocError>
        ensures resumed { IfOk result (λ parent. parent ≡ resumed_as self.old w) }
        ensures settled { IfOk result (λ parent. is_some parent ≡ (word_at self.old w.slot == replied w)) }
        ensures after { OnOk result (self.new ≡ after_resume self.old w) }
        ensures leads { OnOk result (Leads self.old self.new (ended_by self.old w) []) }
        ensures awaits { IfOk result (λ parent. AwaitsLess self.old self.new parent) }
        ensures taken { IfOk result (λ parent. IsSome parent → taken self.new.openers + 1 ≡ taken self.old.openers) }
        ensures frames { OnOk result (self.new.frames ≡ self.old.frames) }
        ensures openers { IfOk result (λ parent. IsSome parent → ChangesOpener self.old self.new w None) }
        ensures none { IfOk result (λ parent. parent ≡ None → self.new ≡ self.old) }
        ensures err { OnErr result (self.new ≡ self.old) }
    {
        let word = word_in(&self.words, w.slot);
        if word != w.turn as u64 * 4 + 2 {
            return Ok(None);
        }
        self.lines.reserve(1)?;
        let Some(opener) = self.openers.remove(w.slot) else {
            unreachable!()
        };
        self.words[w.slot as usize] = word + 2;
        self.lines.push_reserved((w, opener.call, false));
        Ok(Some(Parent {
            frame: opener.frame,
            slot: opener.slot,
        }))
    }

    /// Who opened a wind, with the graph and call of its frame. `None` comes exactly where the wind was not
    /// opened or was resumed.
    pub fn opener(&self, w: WindNo) -> Option<Opener>
        ensures opener { result ≡ opener_of self.now w }
        ensures opened { is_some result ≡ ((word_at self.now w.slot == pending w) || (word_at self.now w.slot == replied w)) }
    {
        let word = word_in(&self.words, w.slot);
        let turn = w.turn as u64 * 4;
        if word != turn + 1 && word != turn + 2 {
            return None;
        }
        let opener = self.openers.get(w.slot)?;
        Some(*opener)
    }

    /// The call of the frame that opened a wind. `None` comes exactly where the wind was not opened or was
    /// resumed.
    pub fn call_of(&self, w: WindNo) -> Option<u32>
        ensures { MatchOption (opener_of self.now w) (result ≡ None) (λ o. result ≡ Some o.call) }
    {
        let opener = self.opener(w)?;
        Some(opener.call)
    }

    /// The frame and slot that opened a wind. `None` comes exactly where the wind was not opened or was
    /// resumed.
    pub fn wound_by(&self, w: WindNo) -> Option<Parent>
        ensures opener { result ≡ parent_of (opener_of self.now w) }
        ensures opened { is_some result ≡ ((word_at self.now w.slot == pending w) || (word_at self.now w.slot == replied w)) }
    {
        let opener = self.opener(w)?;
        Some(Parent {
            frame: opener.frame,
            slot: opener.slot,
        })
    }

    /// Where a frame is. `None` comes exactly where it is not open.
    pub fn place(&self, frame: u32) -> Option<Place>
        ensures { result ≡ place_at self.now frame }
    {
        let found = self.frames.get(frame)?;
        Some(found.place)
    }

    /// Takes the local of a frame out. `None` comes exactly where the frame is not open or its local is
    /// out, and then nothing changed.
    pub fn take(&mut self, frame: u32) -> Option<L>
    where
        L: Drop,
        ensures local { result ≡ local_at self.old frame }
        ensures after { self.new ≡ with_local self.old frame None }
        ensures frames { ChangesFrame self.old self.new frame (with_kept None (frame_at self.old frame)) }
        ensures winds { KeepsWinds self.old self.new }
        ensures taken { taken self.new.frames ≡ taken self.old.frames }
        ensures leads { Leads self.old self.new [] [] }
    {
        let place = self.place(frame)?;
        let emptied = Frame { place, local: None };
        let before = self.frames.replace(frame, emptied)?;
        before.local
    }

    /// Puts a local into an open frame whose local is out.
    pub fn put(&mut self, frame: u32, local: L)
    where
        L: Drop,
        requires { IsSomeAnd (frame_at self.old frame) (λ f. f.local ≡ None) }
        ensures after { self.new ≡ with_local self.old frame (Some local) }
        ensures frames { ChangesFrame self.old self.new frame (with_kept (Some local) (frame_at self.old frame)) }
        ensures winds { KeepsWinds self.old self.new }
        ensures taken { taken self.new.frames ≡ taken self.old.frames }
        ensures leads { Leads self.old self.new [] [] }
    {
        let Some(place) = self.place(frame) else {
            unreachable!()
        };
        let filled = Frame {
            place,
            local: Some(local),
        };
        self.frames.replace(frame, filled);
    }

    /// Ends a frame. It is false, with nothing changed, exactly where the frame is not open. An open frame
    /// has no open wind, and its local is out.
    pub fn free(&mut self, frame: u32) -> bool
    where
        L: Drop,
        requires { IfSome (frame_at self.old frame) (λ f. (f.local ≡ None) × HasNoWind self.old frame) }
        ensures open { result ≡ is_some (frame_at self.old frame) }
        ensures freed { self.new ≡ without_frame self.old frame }
        ensures frames { ChangesFrame self.old self.new frame None }
        ensures winds { KeepsWinds self.old self.new }
        ensures taken { result ≡ true → taken self.new.frames + 1 ≡ taken self.old.frames }
        ensures leads { Leads self.old self.new [] [] }
        ensures absent { result ≡ false → self.new ≡ self.old }
    {
        self.frames.remove(frame).is_some()
    }
}

impl<L> FrameStack<L> {
    /// An empty stack that counts this many winds as opened, for tests of what comes when no further wind
    /// can be opened. It takes no memory.
    pub fn after_winds(alloc: Global, opened: u32) -> FrameStack<L>
        ensures { result ≡ record empty_stack { opened = opened } }
    {
        FrameStack {
            frames: Keyed::new(alloc),
            openers: Keyed::new(alloc),
            words: Vec::new(alloc),
            opened,
            lines: Vec::new(alloc),
        }
    }
}
