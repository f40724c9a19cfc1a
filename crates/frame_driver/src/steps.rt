//! What a step of a frame makes of the board.
ghost use Rattle.std.specs.Prelude.{◌≡◌, ◌<◌, ◌≤◌, None, Some, true, false, IsSome, IsSomeAnd, IfOk, OnOk, OnErr, IsErrOf};
ghost use Rattle.frame_stack.specs.Cells.{taken};
ghost use Rattle.frame_stack.specs.Stack.{HasParent, HasNoWind, frame_at, awaits};
ghost use Rattle.frame_driver.specs.Leading.{Leads};
ghost use Rattle.frame_driver.specs.Machine.{IsAt, IsWindOpened, IsWoundDown, AreWoundDown, handed_to, IsOpened, IsAnswered, IsCarried, IsCutOff, IsCut, MayWind, AreWired, MayCarry, GoesOnWinding, waiting_with, freed, out_of};
ghost use Rattle.frame_driver.specs.Tasks.{ParentIsOurs};
ghost use Rattle.frame_driver.specs.Wiring.{below, IsWired};

use crate::board::Board;
use crate::items::{Answered, Sent, Task};
use crate::queue::Queue;
use crate::wiring::{Child, Wiring};
use std::alloc::{AllocError, Global};
use xlator_law::{Place, Step, Stop, WindNo};

impl<F: Drop, R: Drop, L: Drop> Board<F, R, L> {
    // Opens a wind of an open frame at this place.
    fn open_wind(
        &mut self,
        alloc: Global,
        place: Place,
        frame: u32,
        slot: u8,
    ) -> Result<WindNo, Stop>
        requires open { IsAt self.old.stack frame place }
        requires home { place.graph ≡ self.old.graph }
        requires slot { awaits self.old.stack frame slot ≡ false }
        ensures opened { IfOk result (λ wind. IsWindOpened place frame slot self.old self.new wind) }
        ensures winds { IsErrOf result Stop.Winds → self.old.stack.opened ≡ 4294967295 }
        ensures err { OnErr result (self.new ≡ self.old) }
        ensures leads { Leads self.old self.new }
    {
        if !self.stack.has_room() {
            return Err(Stop::Mem);
        }
        let wind = self.stack.wind(alloc, frame, slot)?;
        Ok(wind)
    }

    // Hands the fop of a wind to the child.
    fn hand_down(
        &mut self,
        to: Child,
        place: Place,
        child: u16,
        wind: WindNo,
        fop: F,
    ) -> Result<(), AllocError>
        requires wired { IsWired to }
        ensures handed { OnOk result (self.new ≡ handed_to self.old to place child wind fop) }
        ensures leads { Leads self.old self.new }
    {
        match to {
            Child::Node(node) => self.queue.push(Task::Enter {
                node,
                call: place.call,
                parent: Some(wind),
                fop,
            }),
            Child::Outside => self.sent.push(Sent {
                wind,
                node: place.node,
                child,
                fop,
            }),
            Child::Nothing => unreachable!(),
        }
    }

    // Opens a wind of a step, and hands its fop down.
    fn wind_down(
        &mut self,
        alloc: Global,
        wiring: &Wiring,
        place: Place,
        frame: u32,
        wound: (u16, u8, F),
    ) -> Result<(), Stop>
        requires open { IsAt self.old.stack frame place }
        requires home { place.graph ≡ self.old.graph }
        requires slot { awaits self.old.stack frame wound.1 ≡ false }
        requires wired { IsWired (below wiring.now place.node wound.0) }
        ensures wound { OnOk result (IsWoundDown wiring.now place frame self.old self.new wound) }
        ensures winds { IsErrOf result Stop.Winds → (self.new ≡ self.old) × (self.old.stack.opened ≡ 4294967295) }
        ensures leads { Leads self.old self.new }
    {
        let (child, slot, fop) = wound;
        let wind = self.open_wind(alloc, place, frame, slot)?;
        let to = wiring.below(place.node, child);
        self.hand_down(to, place, child, wind, fop)?;
        Ok(())
    }

    // Opens the winds of a step, in order.
    fn wind_all(
        &mut self,
        alloc: Global,
        wiring: &Wiring,
        place: Place,
        frame: u32,
        winds: Vec<(u16, u8, F)>,
    ) -> Result<(), Stop>
        requires open { IsAt self.old.stack frame place }
        requires home { place.graph ≡ self.old.graph }
        requires may { MayWind self.old.stack frame winds.items }
        requires wired { AreWired wiring.now place.node winds.items }
        ensures wound { OnOk result (AreWoundDown wiring.now place frame self.old winds.items self.new) }
        ensures winds { IsErrOf result Stop.Winds → IsCutOff wiring.now frame place self.old winds.items self.new }
        ensures leads { Leads self.old self.new }
    {
        let mut rest = Queue::from_vec(winds);
        while let Some(wound) = rest.pop() {
            self.wind_down(alloc, wiring, place, frame, wound)?;
        }
        Ok(())
    }

    // Hands an answer to the frame that opened the wind, or out.
    fn answer(
        &mut self,
        alloc: Global,
        parent: Option<WindNo>,
        call: u32,
        reply: R,
    ) -> Result<(), AllocError>
        requires ours { ParentIsOurs self.old.stack self.old.graph parent }
        ensures answered { OnOk result (IsAnswered parent call reply self.old self.new) }
        ensures leads { Leads self.old self.new }
    {
        match parent {
            Some(wind) => {
                self.end_wind(alloc, wind, reply)?;
                Ok(())
            }
            None => self.answers.push(Answered { call, reply }),
        }
    }

    // Opens a frame at this place, whose local is still to come.
    pub(crate) fn begin(&mut self, alloc: Global, place: Place) -> Result<u32, AllocError>
        requires home { place.graph ≡ self.old.graph }
        requires parent { HasParent self.old.stack place.graph place.call place.parent }
        requires few { self.old.frames ≤ taken self.old.stack.frames }
        ensures opened { IfOk result (λ key. IsOpened place key self.old self.new) }
        ensures leads { Leads self.old self.new }
    {
        if !self.stack.has_room() {
            return Err(AllocError);
        }
        let frame = self
            .stack
            .begin(alloc, place.graph, place.call, place.node, place.parent)?;
        self.frames += 1;
        Ok(frame)
    }

    // A frame whose local is out opens these winds, in order, and keeps this local.
    fn wind_and_keep(
        &mut self,
        alloc: Global,
        wiring: &Wiring,
        frame: u32,
        place: Place,
        winds: Vec<(u16, u8, F)>,
        local: L,
    ) -> Result<(), Stop>
        requires home { place.graph ≡ self.old.graph }
        requires out { frame_at self.old.stack frame ≡ Some (record { place = place; local = None }) }
        requires may { MayWind self.old.stack frame winds.items }
        requires wired { AreWired wiring.now place.node winds.items }
        ensures wound { OnOk result (GoesOnWinding wiring.now frame place self.old winds.items local self.new) }
        ensures winds { IsErrOf result Stop.Winds → IsCutOff wiring.now frame place self.old winds.items self.new }
        ensures leads { Leads self.old self.new }
    {
        self.wind_all(alloc, wiring, place, frame, winds)?;
        self.stack.put(frame, local);
        Ok(())
    }

    // A frame whose local is out keeps this one, and is noted as one that waits for no wind.
    fn keep_waiting(&mut self, frame: u32, place: Place, local: L) -> Result<(), AllocError>
        requires home { place.graph ≡ self.old.graph }
        requires out { frame_at self.old.stack frame ≡ Some (record { place = place; local = None }) }
        ensures kept { OnOk result (self.new ≡ waiting_with self.old frame local) }
        ensures leads { Leads self.old self.new }
    {
        self.stack.put(frame, local);
        self.waiting.push(frame)
    }

    // Ends a frame whose local is out, and answers who opened it.
    fn end_frame(
        &mut self,
        alloc: Global,
        frame: u32,
        place: Place,
        reply: R,
    ) -> Result<(), AllocError>
        requires home { place.graph ≡ self.old.graph }
        requires out { frame_at self.old.stack frame ≡ Some (record { place = place; local = None }) }
        requires none { HasNoWind self.old.stack frame }
        requires counted { 0 < self.old.frames }
        requires ours { ParentIsOurs self.old.stack self.old.graph place.parent }
        ensures answered { OnOk result (IsAnswered place.parent place.call reply (freed self.old frame) self.new) }
        ensures leads { Leads self.old self.new }
    {
        self.stack.free(frame);
        self.frames -= 1;
        self.answer(alloc, place.parent, place.call, reply)
    }

    // Carries out a step of an open frame whose local is out.
    pub(crate) fn carry(
        &mut self,
        alloc: Global,
        wiring: &Wiring,
        frame: u32,
        place: Place,
        step: Step<F, R, L>,
    ) -> Result<(), Stop>
        requires home { place.graph ≡ self.old.graph }
        requires out { frame_at self.old.stack frame ≡ Some (record { place = place; local = None }) }
        requires may { MayCarry wiring.now place self.old frame step }
        ensures carried { OnOk result (IsCarried wiring.now frame place self.old step self.new) }
        ensures winds { IsErrOf result Stop.Winds → IsCut wiring.now frame place self.old step self.new }
        ensures leads { Leads self.old self.new }
    {
        match step {
            Step::Wind(winds, local) => {
                self.wind_and_keep(alloc, wiring, frame, place, winds, local)
            }
            Step::Wait(local) => {
                self.keep_waiting(frame, place, local)?;
                Ok(())
            }
            Step::Unwind(reply) => {
                self.end_frame(alloc, frame, place, reply)?;
                Ok(())
            }
        }
    }

    // Takes the local of a frame that keeps one out, and says where the frame is.
    #[tactic(auto, using(crate::proofs::Taking::stood_at, crate::proofs::Taking::place_there, crate::proofs::Taking::local_there))]
    pub(crate) fn take_out(&mut self, frame: u32) -> (Place, L)
        requires kept { IsSomeAnd (frame_at self.old.stack frame) (λ f. IsSome f.local) }
        ensures stood { frame_at self.old.stack frame ≡ Some (record { place = result.0; local = Some result.1 }) }
        ensures out { self.new ≡ out_of self.old frame }
    {
        let Some(place) = self.stack.place(frame) else {
            unreachable!()
        };
        let Some(local) = self.stack.take(frame) else {
            unreachable!()
        };
        (place, local)
    }
}
