//! An honest log, and what is wrong with it after one edit.
ghost use Rattle.script_lang.specs.Accepted.{IsAccepted};

use crate::audits::note_refusals;
use crate::logs::{Edit, Of, Rows, made};
use brick_machine::Brick;
use fop_types::{Seq, SetPlan};
use graph_build::Plan;
use mount_log::Log;
use script_lang::{Script, parse};
use std::alloc::{AllocError, Global};

// Calls on lines 9, 10 and 11: two of session s, then one of session t.
const SCRIPT: &[u8] =
    b"brick b0 h0 /b0\nvolfile g\nvolume c0\ntype protocol/client\nend-volume\nend-volfile\nstart g\nphase\ndo s mkdir /a 755\ndo s stat /a\ndo t stat /\n";

// Graph 1 is connected from the start, and the index of the first call is answered. The brick goes down and comes up, and
// is connected again; a switch makes graph 2; and the brick goes down, and is to fail an index, before the index of the second
// call.
const HONEST: Rows = Rows {
    events: &[
        &[0, 0, 9],
        &[1, 0, 0, 1, 3, 1, 1],
        &[1, 0, 0, 2, 0, 0, 0, 0, 3, 2, 0, 0, 0, 1, 1, 0, 0, 0, 1, 2],
        &[2, 0, 0],
        &[3, 0],
        &[1, 0, 0, 3, 1],
        &[1, 0, 0, 4, 2],
        &[4, 0],
        &[5, 0, 1],
        &[6, 0, 1],
        &[0, 0, 10],
        &[0, 1, 11],
        &[1, 0, 0, 5, 3, 1, 1],
    ],
    sent: &[
        &[0, 0, 3, 1, 1],
        &[1, 0, 0, 0, 0, 1, 10],
        &[4, 0, 1, 0],
        &[5, 0, 2],
        &[7, 0, 3, 1, 1],
        &[8, 0, 3, 2, 1],
        &[11, 0, 1, 0],
        &[11, 0, 5, 10, 1],
        &[11, 0, 0, 1, 0, 2, 10],
    ],
    replies: &[&[3, 1], &[13, 3], &[13, 2]],
    winds: &[
        &[1, 1, 0, 0, 1],
        &[1, 1, 0, 0, 0],
        &[2, 2, 0, 1, 1],
        &[2, 3, 1, 0, 1],
        &[2, 2, 0, 1, 0],
        &[2, 3, 1, 0, 0],
    ],
    served: &[&[3, 1, 1], &[0, 0, 0, 1, 10], &[1, 0], &[2], &[3, 1, 1]],
};

const NOTHING: usize = 99;

// An edit, and the letters of the audits that then answer false.
const CASES: [(Of, usize, &[u32], &[u8]); 32] = [
    (Of::Winds, NOTHING, &[], b""),
    // A wind that does not end, one that ends in another graph or for another call, ends twice, or comes again.
    (Of::Winds, 5, &[], b"w"),
    (Of::Winds, 1, &[2, 1, 0, 0, 0], b"wo"),
    (Of::Winds, 1, &[1, 2, 0, 0, 0], b"wo"),
    (Of::Winds, 5, &[2, 2, 0, 1, 0], b"wo"),
    (Of::Winds, 0, &[], b"wo"),
    (Of::Winds, 2, &[2, 2, 0, 0, 1], b"wo"),
    // An arrival that the brick did not put out, one of no brick, and one before its input.
    (Of::Events, 1, &[1, 0, 0, 1, 3, 2, 1], b"b"),
    (Of::Events, 12, &[1, 1, 0, 5, 3, 1, 1], b"b"),
    (Of::Events, 12, &[1, 0, 0, 5, 3, 2, 1], b"b"),
    (Of::Sent, 1, &[3, 0, 0, 0, 0, 1, 10], b"a"),
    // Inputs that were served and not sent; the other line is no input.
    (Of::Served, 4, &[3, 2, 1], b"b"),
    (Of::Sent, 1, &[1, 0, 0, 0, 0, 1, 11], b"b"),
    // A line before its time, one that is none, and a session that is none.
    (Of::Events, 0, &[0, 0, 10], b"s"),
    (Of::Events, 10, &[0, 0, 11], b"s"),
    (Of::Events, 11, &[0, 2, 11], b"s"),
    // A call that is not submitted, one without a reply, one with two, and a reply to none.
    (Of::Events, 11, &[5, 0, 1], b"cf"),
    (Of::Replies, 1, &[], b"f"),
    (Of::Replies, 1, &[13, 1], b"f"),
    (Of::Replies, 2, &[13, 4], b"cf"),
    (Of::Replies, 2, &[13, 0], b"cf"),
    // A Connect for nothing, of a graph that the switch does not make, and without an Opened.
    (Of::Sent, 5, &[9, 0, 3, 2, 1], b"c"),
    (Of::Sent, 5, &[8, 0, 3, 1, 1], b"c"),
    (Of::Sent, 4, &[6, 0, 3, 1, 1], b"c"),
    // No Connect for the start but one behind it, none for the switch, and a Disconnect for nothing.
    (Of::Sent, 0, &[1, 0, 3, 1, 1], b"c"),
    (Of::Sent, 5, &[], b"c"),
    (Of::Sent, 6, &[11, 0, 4, 2], b"c"),
    // A Down before no request, one before an input of another brick, and one alone before its request; an Up for nothing;
    // and an action that does not send its Down.
    (Of::Sent, 8, &[], b"c"),
    (Of::Sent, 7, &[11, 1, 5, 10, 1], b"c"),
    (Of::Sent, 7, &[], b""),
    (Of::Sent, 5, &[8, 0, 2], b"c"),
    (Of::Events, 8, &[2, 0, 0], b"c"),
];

// The brick that served its rows of a log, which is made with one edit.
fn served(alloc: Global, log: &mut Log, edit: Edit) -> Result<Brick, AllocError> {
    let mut brick = Brick::new(alloc)?;
    match made(alloc, log, &mut brick, &HONEST, edit) {
        Ok(()) => Ok(brick),
        Err(error) => {
            drop(brick);
            Err(error)
        }
    }
}

fn note_brick(
    alloc: Global,
    letters: &mut Vec<u8>,
    script: &Script,
    plans: &[Plan],
    log: &Log,
    brick: Brick,
) -> Result<(), AllocError>
    requires { IsAccepted script.now }
{
    let bricks = [brick];
    let noted = note_refusals(alloc, letters, script, plans, log, &bricks);
    drop(bricks);
    noted
}

fn note_log(
    alloc: Global,
    letters: &mut Vec<u8>,
    script: &Script,
    plans: &[Plan],
    log: &mut Log,
    edit: Edit,
) -> Result<(), AllocError>
    requires { IsAccepted script.now }
{
    let brick = served(alloc, log, edit)?;
    note_brick(alloc, letters, script, plans, log, brick)
}

// The letters of the log that an edit makes.
fn note_edited(
    alloc: Global,
    letters: &mut Vec<u8>,
    script: &Script,
    plans: &[Plan],
    edit: Edit,
) -> Result<(), AllocError>
    requires { IsAccepted script.now }
{
    let mut log = Log::new(alloc);
    let noted = note_log(alloc, letters, script, plans, &mut log, edit);
    drop(log);
    noted
}

fn is_as_wanted(
    alloc: Global,
    script: &Script,
    plans: &[Plan],
    edit: Edit,
    wanted: &[u8],
) -> Result<bool, AllocError>
    requires { IsAccepted script.now }
{
    let mut letters = Vec::new(alloc);
    note_edited(alloc, &mut letters, script, plans, edit)?;
    Ok(letters.as_slice() == wanted)
}

// The plan of the one volfile: a set of the one brick.
fn plans_of(alloc: Global) -> Result<Vec<Plan>, AllocError> {
    let mut bricks = Seq::new(alloc);
    bricks.push(0)?;
    let mut sets = Seq::new(alloc);
    sets.push(SetPlan {
        number: 0,
        name: Seq::new(alloc),
        bricks,
        clients: Seq::new(alloc),
        q: 1,
    })?;
    let mut plans = Vec::new(alloc);
    plans.push(Plan {
        nodes: Seq::new(alloc),
        sets,
    })?;
    Ok(plans)
}

// The number of the first case, from 1, of which the audits answer otherwise; 0 where there is none.
fn first_wrong(alloc: Global, script: &Script, plans: &[Plan]) -> Result<usize, AllocError>
    requires { IsAccepted script.now }
{
    let mut number = 0usize;
    for (of, at, row, wanted) in &CASES {
        number = number.saturating_add(1);
        let edit = Edit {
            of: *of,
            at: *at,
            row: *row,
        };
        if !is_as_wanted(alloc, script, plans, edit, wanted)? {
            return Ok(number);
        }
    }
    Ok(0)
}

fn first_wrong_with_plans(alloc: Global, script: &Script) -> Result<usize, AllocError>
    requires { IsAccepted script.now }
{
    let plans = plans_of(alloc)?;
    let wrong = first_wrong(alloc, script, plans.as_slice());
    drop(plans);
    wrong
}

fn first_wrong_of_script(alloc: Global) -> Result<usize, AllocError> {
    match parse(alloc, SCRIPT) {
        Ok(script) => {
            let wrong = first_wrong_with_plans(alloc, &script);
            drop(script);
            wrong
        }
        Err(_) => Err(AllocError),
    }
}

// The same, but the greatest number where it was not found.
fn wrong_case(alloc: Global) -> usize {
    match first_wrong_of_script(alloc) {
        Ok(number) => number,
        Err(_) => usize::MAX,
    }
}

#[test]
fn audits_see_one_wrong_line(rt: HostRuntime) {
    assert_eq!(rt; wrong_case(rt.alloc()), 0);
}
