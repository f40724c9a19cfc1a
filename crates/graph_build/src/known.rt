ghost use Rattle.std.specs.Prelude.{◌≡◌, ◌<◌, ◌≤◌, [], length, Some, None, Ok, Err, IfOk, OnErr};
ghost use Rattle.std.specs.Option.{MatchOption};
ghost use Rattle.std.specs.List.{AllByRecursion};
ghost use Rattle.graph_build.specs.Known.{IsFew};
ghost use Rattle.graph_build.specs.PlanRules.{added, bottom_at as bottom_at_place, bottom_of as bottom_of_role, first_bottom as first_bottom_at, info_below, is_taken as is_taken_by, is_used as is_used_by, unused_from};

use crate::errors::PlanKind;
use crate::infos::{Info, Role};
use crate::marks::{mark_all, no_marks, with_brick};
use crate::trees::{gathered, grown, is_nested};
use fop_types::Seq;
use std::alloc::{AllocError, Global};
use std::marker::Model;

// What is known of the first volumes, with marks of the places that they use and of the bricks that they
// have. Contracts see it as the list of what is known.
#[derive(Drop)]
pub(crate) struct Known {
    infos: Vec<Info>,
    used: [bool; 256],
    taken: [bool; 256],
}

impl Model for Known {
    ghost use Rattle.std.specs.Prelude.{List};
    ghost use Rattle.graph_build.specs.Known.{IsKept};
    ghost use Rattle.graph_build.specs.declared.infos.Info.{Info as InfoOf};

    ghost Value = { List InfoOf };

    ghost view = { λ k. k.infos.items };

    ghost invariant = { λ k. IsKept k.infos.items k.used k.taken };
}

impl Known {
    pub(crate) fn new(alloc: Global) -> Known
        ensures { result ≡ [] }
    {
        Known {
            infos: Vec::new(alloc),
            used: no_marks(),
            taken: no_marks(),
        }
    }

    pub(crate) fn len(&self) -> usize
        ensures { result ≡ length self.now }
    {
        self.infos.len()
    }

    // Whether a client has the brick.
    pub(crate) fn is_taken(&self, brick: u8) -> bool
        ensures { result ≡ is_taken_by self.now brick }
    {
        self.taken[brick as usize]
    }

    // Whether a volume uses the place.
    fn is_used(&self, place: u8) -> bool
        ensures { result ≡ is_used_by self.now place }
    {
        self.used[place as usize]
    }

    // Adds a volume of this role over those at these places, or says which rule does not hold of it.
    pub(crate) fn add(&mut self, role: Role, below: Seq<u8>) -> Result<Option<PlanKind>, AllocError>
        requires room { length self.old < 256 }
        ensures ok { IfOk result (λ no. MatchOption no (added (info_below self.old role below) self.old ≡ Ok self.new)
            (λ kind. (added (info_below self.old role below) self.old ≡ Err kind) × (self.new ≡ self.old))) }
        ensures err { OnErr result (self.new ≡ self.old) }
    {
        let mut used = self.used;
        if mark_all(&mut used, below.as_slice()) {
            return Ok(Some(PlanKind::UsedTwice));
        }
        let tree = gathered(self.infos.as_slice(), below.as_slice());
        if is_nested(role, tree) {
            return Ok(Some(PlanKind::NestedCluster));
        }
        if tree.depth >= 24 {
            return Ok(Some(PlanKind::TooDeep));
        }
        self.infos.reserve(1)?;
        let bottom = bottom_of(role, self.infos.as_slice(), below.as_slice());
        self.used = used;
        self.taken = with_brick(self.taken, role);
        self.infos.push_reserved(Info {
            role,
            below,
            bottom,
            tree: grown(role, tree),
        });
        Ok(None)
    }

    // The place of the first volume that no volume uses, where the last is none.
    pub(crate) fn first_unused(&self) -> Option<u8>
        requires { length self.now ≤ 256 }
        ensures { result ≡ unused_from self.now self.now 0 }
    {
        let size = self.len();
        let mut place = 0;
        while place + 1 < size {
            if !self.is_used(place as u8) {
                return Some(place as u8);
            }
            place += 1;
        }
        None
    }

    pub(crate) fn into_infos(self) -> Vec<Info>
        ensures is { result.items ≡ self }
        ensures few { AllByRecursion IsFew self }
    {
        self.infos
    }
}

// The place to which the way down from a place leads.
pub(crate) fn bottom_at(infos: &[Info], place: u8) -> u8
    ensures { result ≡ bottom_at_place infos.now place }
{
    match infos.get(place as usize) {
        None => 0,
        Some(info) => info.bottom,
    }
}

fn first_bottom(infos: &[Info], below: &[u8]) -> u8
    ensures { result ≡ first_bottom_at infos.now below.now }
{
    match below {
        [] => 0,
        [place, ..] => bottom_at(infos, *place),
    }
}

fn bottom_of(role: Role, infos: &[Info], below: &[u8]) -> u8
    requires { length infos.now < 256 }
    ensures { result ≡ bottom_of_role role infos.now below.now }
{
    match role {
        Role::Client(_) => infos.len() as u8,
        Role::Replicate => infos.len() as u8,
        Role::Distribute => infos.len() as u8,
        Role::IoCache(_) => first_bottom(infos, below),
        Role::IoThreads => first_bottom(infos, below),
        Role::Pass => first_bottom(infos, below),
    }
}
