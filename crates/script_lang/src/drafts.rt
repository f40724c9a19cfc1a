ghost use Rattle.std.specs.Prelude.{◌≡◌};

use crate::few::{Few, Named};
use crate::scripts::{CallLine, ControlLine, NamedVolfile, Phase};
use fop_types::Seq;
use volfile::{BrickLine, VolfileReader};

// Which part of the script was begun last: its bricks, its volfiles, the `start`, or its phases.
#[derive(Clone, Copy)]
pub enum Part {
    Bricks,
    Volfiles,
    Start,
    Phases,
}

// What was read of a script so far. `phases` are those that have ended, `calls` and `controls` those of
// the phase that is read, `call_count` is the number of `do` lines in all phases, and `is_great` says
// whether the phase that is read has a heal or a switch.
#[derive(Drop)]
pub struct Draft {
    pub part: Part,
    pub bricks: Few<BrickLine>,
    pub volfiles: Few<NamedVolfile>,
    pub start: u8,
    pub sessions: Few<Seq<u8>>,
    pub phases: Seq<Phase>,
    pub calls: Seq<CallLine>,
    pub controls: Seq<ControlLine>,
    pub call_count: u32,
    pub is_great: bool,
}

// The volfile whose lines are read: its name in the script, and what was read of it.
#[derive(Drop)]
pub struct Inside {
    pub name: Seq<u8>,
    pub reader: VolfileReader,
}

// What was read of a text so far, as contracts see it; the code keeps a draft, and the volfile where it is
// inside one.
pub enum Reading {
    InScript(Draft),
    InVolfile(Draft, Seq<u8>, VolfileReader),
}

impl Named for BrickLine {
    ghost name_of = { λ b. b.name };

    fn name(&self) -> &[u8] {
        self.name.as_slice()
    }
}

impl Named for NamedVolfile {
    ghost name_of = { λ v. v.name };

    fn name(&self) -> &[u8] {
        self.name.as_slice()
    }
}

impl Named for Seq<u8> {
    ghost name_of = { λ s. s };

    fn name(&self) -> &[u8] {
        self.as_slice()
    }
}
