ghost use Rattle.std.specs.Prelude.{◌≡◌, ◌+◌, slice_get};
ghost use Rattle.std.specs.Option.{option_copied};
ghost use Rattle.call_fops.specs.Walks.{begun, next_name, next_parent, root_object, stepped};

use crate::paths::{first_path, second_path};
use fop_types::{Call, Gfid, Kind, Object, Seq};
use std::marker::Model;

const ROOT: Object = Object {
    gfid: Gfid { hi: 0, lo: 1 },
    kind: Kind::Dir,
    set: 0,
};

// How far one path is walked: the object that was reached, and the number of components that were found.
#[derive(Clone, Copy)]
struct Leg {
    object: Object,
    passed: usize,
}

fn component_on<'a>(path: &'a [Seq<u8>], leg: Leg) -> Option<&'a Seq<u8>>
    ensures { option_copied result ≡ slice_get path.now leg.passed }
{
    path.get(leg.passed)
}

/// How far the lookups of a call are: for each of its paths the object that was reached, and how many components were
/// found. It copies no name: its methods look them up in the call that it is the walk of.
#[derive(Clone, Copy)]
pub struct Walk {
    first_leg: Leg,
    second_leg: Leg,
}

impl Model for Walk {
    ghost use Rattle.call_fops.specs.Walks.{Walked};

    ghost Value = { Walked };

    ghost view = { λ w. record {
      first = record { at = w.first_leg.object; found = w.first_leg.passed };
      second = record { at = w.second_leg.object; found = w.second_leg.passed };
    } };

    ghost inverse = { λ v. record {
      first_leg = record { object = v.first.at; passed = v.first.found };
      second_leg = record { object = v.second.at; passed = v.second.found };
    } };
}

impl Walk {
    /// The walk before any lookup: each path at the root.
    pub fn begin() -> Walk
        ensures { result ≡ begun }
    {
        let leg = Leg {
            object: ROOT,
            passed: 0,
        };
        Walk {
            first_leg: leg,
            second_leg: leg,
        }
    }

    /// The object that the first path has led to so far: of a rename the old name's directory.
    pub fn first(&self) -> Object
        ensures { result ≡ self.now.first.at }
    {
        self.first_leg.object
    }

    /// The object that the second path has led to so far: of a rename the new name's directory.
    pub fn second(&self) -> Object
        ensures { result ≡ self.now.second.at }
    {
        self.second_leg.object
    }

    /// The component of the call's paths that is looked up next, `None` where all were found.
    pub fn component<'a>(&self, call: &'a Call) -> Option<&'a Seq<u8>>
        ensures { option_copied result ≡ next_name call.now self.now }
    {
        match component_on(first_path(call), self.first_leg) {
            Some(name) => Some(name),
            None => component_on(second_path(call), self.second_leg),
        }
    }

    /// The directory in which that component is looked up.
    pub fn parent(&self, call: &Call) -> Object
        ensures { result ≡ next_parent call.now self.now }
    {
        match component_on(first_path(call), self.first_leg) {
            Some(_) => self.first_leg.object,
            None => self.second_leg.object,
        }
    }

    /// The next component was found to be this object. Where all were found before, the walk stays as it is.
    pub fn step(&mut self, call: &Call, object: Object)
        ensures { self.new ≡ stepped call.now self.old object }
    {
        let first = first_path(call);
        if self.first_leg.passed < first.len() {
            self.first_leg = Leg {
                object,
                passed: self.first_leg.passed + 1,
            };
            return;
        }
        let second = second_path(call);
        if self.second_leg.passed < second.len() {
            self.second_leg = Leg {
                object,
                passed: self.second_leg.passed + 1,
            };
        }
    }
}
