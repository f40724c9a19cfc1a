//! The controls of a phase, and when each is due.
ghost use Rattle.std.specs.Prelude.{◌≡◌, ◌≤◌, ◌+◌, ◌-◌, ◌^◌, ◌==◌, min, is_none, length, slice_get, OnOk, OnErr, IfOk};
ghost use Rattle.std.specs.BTreeMap.{insert_entry};
ghost use Rattle.hub_tables.specs.PhaseControls.{no_controls, rank_cmp, first_due, next_plain, first_left, first_of_request, place_by as place_of_action, entry_by as entry_of_control, where_may, with_control, with_controls, without_control, carried_by, armed_by as place_of_arm, with_armed, next_count, with_count, next_armed, without_armed, drop_armed, action_of, with_sent};

use crate::actions::Due;
use crate::control_maps::{armed_by, come, entry_by, first_for, first_of, place_by};
use crate::requests::Nth;
use fop_types::Proc;
use script_lang::{Action, ControlLine, Phase, When};
use std::alloc::{AllocError, Global};
use std::collections::BTreeMap;
use std::marker::Model;

/// An action that is to be carried out before a request: its control's place in the phase, if it has one.
#[derive(Clone, Copy)]
pub struct Armed {
    pub control: Option<u32>,
    pub action: Action,
}

// The place of an action among those of one request. Those of controls come first, in the order of the script.
#[derive(Clone, Copy, PartialEq, Eq, PartialOrd, Ord)]
pub struct Rank {
    pub request: Nth,
    pub order: u32,
}

/// The controls of the current phase that were not carried out, by their places in the phase: all of them; those without
/// a condition; those to be armed; those that wait for a request to be sent; and those whose request was sent. `armed`
/// has the actions that are to go before a request, and `counts` how many requests of each procedure were sent to each
/// brick in the phase. Contracts see each table as the list of its entries, rising.
#[derive(Drop)]
pub struct Controls {
    left: BTreeMap<u32, ControlLine>,
    plain: BTreeMap<u32, Action>,
    unarmed: BTreeMap<u32, Due>,
    awaited: BTreeMap<Rank, Action>,
    come: BTreeMap<u32, Action>,
    armed: BTreeMap<Rank, Armed>,
    counts: BTreeMap<(u8, u8), u32>,
    extra: u32,
}

impl Model for Controls {
    ghost use Rattle.hub_tables.specs.PhaseControls.{ControlsState};

    ghost Value = { ControlsState };

    ghost view = { λ c. record {
      left = c.left.entries;
      plain = c.plain.entries;
      unarmed = c.unarmed.entries;
      awaited = c.awaited.entries;
      come = c.come.entries;
      armed = c.armed.entries;
      counts = c.counts.entries;
      extra = c.extra;
    } };
}

// Where the actions that belong to no control begin among those of one request.
const EXTRA: u32 = 2147483648;

impl Controls {
    /// No controls, which takes no memory.
    pub fn new(alloc: Global) -> Controls
        ensures { result ≡ no_controls }
    {
        Controls {
            left: BTreeMap::new(alloc),
            plain: BTreeMap::new(alloc),
            unarmed: BTreeMap::new(alloc),
            awaited: BTreeMap::new(alloc),
            come: BTreeMap::new(alloc),
            armed: BTreeMap::new(alloc),
            counts: BTreeMap::new(alloc),
            extra: EXTRA,
        }
    }

    fn add(&mut self, order: u32, control: ControlLine) -> Result<(), AllocError>
        ensures { OnOk result (self.new ≡ with_control self.old order control) }
    {
        self.left.insert(order, control)?;
        match control.when {
            When::Now => {
                self.plain.insert(order, control.action)?;
            }
            When::Before(brick, proc, count) => {
                let due = Due::Arm(brick, proc, count, control.action);
                self.unarmed.insert(order, due)?;
            }
            When::After(brick, proc, count) => {
                let request = Nth::new(brick, proc, count);
                self.awaited
                    .insert(Rank { request, order }, control.action)?;
            }
        }
        Ok(())
    }

    /// The controls of a phase that begins.
    ///
    /// # Errors
    /// Out of memory, which more than 2,147,483,648 controls are said to be.
    pub fn of(alloc: Global, phase: &Phase) -> Result<Controls, AllocError>
        ensures { IfOk result (λ controls. controls ≡ with_controls no_controls 0 phase.now.controls) }
    {
        if phase.controls.len() > EXTRA as usize {
            return Err(AllocError);
        }
        Controls::of_lines(alloc, phase.controls.as_slice())
    }

    fn of_lines(alloc: Global, lines: &[ControlLine]) -> Result<Controls, AllocError>
        requires { length lines.now ≤ 2147483648 }
        ensures { IfOk result (λ controls. controls ≡ with_controls no_controls 0 lines.now) }
    {
        let mut controls = Controls::new(alloc);
        let mut order = 0u32;
        for line in lines {
            controls.add(order, *line)?;
            order = order.saturating_add(1);
        }
        Ok(controls)
    }

    /// Whether each control was carried out.
    pub fn is_empty(&self) -> bool
        ensures { result ≡ is_none (first_left self.now) }
    {
        self.left.is_empty()
    }

    /// What goes before everything else: the first control that is to be armed, or else the first one whose request was
    /// sent.
    pub fn first(&self) -> Option<Due>
        ensures { result ≡ first_due self.now }
    {
        match first_of(&self.unarmed) {
            Some((_, due)) => Some(due),
            None => match first_of(&self.come) {
                Some((_, action)) => Some(Due::Act(action)),
                None => None,
            },
        }
    }

    /// The next control without a condition.
    pub fn plain(&self) -> Option<Action>
        ensures { result ≡ next_plain self.now }
    {
        match first_of(&self.plain) {
            Some((_, action)) => Some(action),
            None => None,
        }
    }

    /// The first control that was not carried out.
    pub fn rest(&self) -> Option<Action>
        ensures { result ≡ first_left self.now }
    {
        match first_of(&self.left) {
            Some((_, control)) => Some(control.action),
            None => None,
        }
    }

    /// Notes that the action of a control is carried out.
    pub fn carried(&mut self, order: u32)
        ensures { self.new ≡ without_control self.old order }
    {
        let Some(control) = self.left.remove(&order) else {
            return;
        };
        match control.when {
            When::Now => {
                self.plain.remove(&order);
            }
            When::Before(brick, proc, count) => {
                let request = Nth::new(brick, proc, count);
                self.unarmed.remove(&order);
                self.armed.remove(&Rank { request, order });
            }
            When::After(brick, proc, count) => {
                let request = Nth::new(brick, proc, count);
                self.awaited.remove(&Rank { request, order });
                self.come.remove(&order);
            }
        }
    }

    /// The control that an action carries out: the first one whose request was sent, where none is to be armed, else
    /// the next one without a condition where it may go on, else the first one left where the phase has nothing else.
    pub fn carried_by(&self, action: Action, plain: bool, rest: bool) -> Option<u32>
        ensures { result ≡ carried_by self.now action plain rest }
    {
        match self.come_by(action) {
            Some(order) => Some(order),
            None => match self.plain_by(action, plain) {
                Some(order) => Some(order),
                None => self.rest_by(action, rest),
            },
        }
    }

    fn come_by(&self, action: Action) -> Option<u32>
        ensures { result ≡ where_may (length self.now.unarmed == 0) (place_of_action (slice_get self.now.come 0) action) }
    {
        if !self.unarmed.is_empty() {
            return None;
        }
        place_by(first_of(&self.come), action)
    }

    fn plain_by(&self, action: Action, may: bool) -> Option<u32>
        ensures { result ≡ where_may may (place_of_action (slice_get self.now.plain 0) action) }
    {
        if !may {
            return None;
        }
        place_by(first_of(&self.plain), action)
    }

    fn rest_by(&self, action: Action, may: bool) -> Option<u32>
        ensures { result ≡ where_may may (place_of_action (entry_of_control (slice_get self.now.left 0)) action) }
    {
        if !may {
            return None;
        }
        place_by(entry_by(first_of(&self.left)), action)
    }

    // Whether an Arm is that of the first control that is to be armed, and of which one.
    fn arms(&self, brick: u8, proc: Proc, count: u32, action: Action) -> Option<u32>
        ensures { result ≡ place_of_arm (slice_get self.now.unarmed 0) brick proc count action }
    {
        armed_by(first_of(&self.unarmed), brick, proc, count, action)
    }

    /// Arms an action: that of the first control that is to be armed, where it is the same, or one of its own.
    ///
    /// # Errors
    /// Out of memory.
    pub fn arm(
        &mut self,
        brick: u8,
        proc: Proc,
        count: u32,
        action: Action,
    ) -> Result<(), AllocError>
        ensures { OnOk result (self.new ≡ with_armed self.old brick proc count action) }
    {
        let request = Nth::new(brick, proc, count);
        match self.arms(brick, proc, count, action) {
            Some(order) => {
                let control = Some(order);
                self.arm_at(Rank { request, order }, Armed { control, action })?;
                self.unarmed.remove(&order);
                Ok(())
            }
            None => {
                let order = self.extra_order();
                let control = None;
                self.arm_at(Rank { request, order }, Armed { control, action })?;
                Ok(())
            }
        }
    }

    fn arm_at(&mut self, rank: Rank, armed: Armed) -> Result<(), AllocError>
        ensures { OnOk result (self.new ≡ record self.old { armed = insert_entry rank_cmp self.old.armed rank armed }) }
    {
        self.armed.insert(rank, armed)?;
        Ok(())
    }

    // The next place of an action that is no control's.
    fn extra_order(&mut self) -> u32
        ensures order { result ≡ min (self.old.extra + 1) (2 ^ 32 - 1) }
        ensures extra { self.new ≡ record self.old { extra = result } }
    {
        self.extra = self.extra.saturating_add(1);
        self.extra
    }

    /// Counts a request of a procedure that goes to a brick, and gives which one it is.
    ///
    /// # Errors
    /// Out of memory.
    pub fn count(&mut self, brick: u8, proc: u8) -> Result<Nth, AllocError>
        ensures request { IfOk result (λ nth. nth ≡ record { brick = brick; proc = proc; count = next_count self.old brick proc }) }
        ensures counted { OnOk result (self.new ≡ with_count self.old brick proc) }
        ensures err { OnErr result (self.new ≡ self.old) }
    {
        let before = match self.counts.get(&(brick, proc)) {
            Some(count) => *count,
            None => 0,
        };
        let count = before.saturating_add(1);
        self.counts.insert((brick, proc), count)?;
        Ok(Nth { brick, proc, count })
    }

    /// How many actions are armed.
    pub fn armed_len(&self) -> usize
        ensures { result ≡ length self.now.armed }
    {
        self.armed.len()
    }

    /// Takes the next action that is armed for a request.
    pub fn take_armed(&mut self, request: Nth) -> Option<Action>
        ensures action { result ≡ action_of (next_armed self.old request) }
        ensures taken { self.new ≡ without_armed self.old request }
    {
        let armed = self.take_first(request)?;
        match armed.control {
            Some(order) => {
                self.carried(order);
                Some(armed.action)
            }
            None => Some(armed.action),
        }
    }

    // Takes the next action that is armed for a request, without its control.
    fn take_first(&mut self, request: Nth) -> Option<Armed>
        ensures armed { result ≡ next_armed self.old request }
        ensures taken { self.new ≡ drop_armed self.old (first_of_request self.old.armed request) }
    {
        match first_for(&self.armed, request) {
            Some(rank) => self.armed.remove(&rank),
            None => None,
        }
    }

    /// A request was sent: the controls that wait for it have come.
    ///
    /// # Errors
    /// Out of memory.
    pub fn sent(&mut self, request: Nth) -> Result<(), AllocError>
        ensures { OnOk result (self.new ≡ with_sent self.old request) }
    {
        come(&mut self.awaited, &mut self.come, request)
    }
}
