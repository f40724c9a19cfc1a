ghost use Rattle.std.specs.Prelude.{◌≡◌, ◌≤◌, ◌++◌, IfOk, OnOk};
ghost use Rattle.std.specs.Fmt.{decimal};
ghost use Rattle.script_commands.specs.Checks.{calls_in, check_text};

use script_lang::{Phase, Script};
use std::alloc::{AllocError, Global};

// How many calls the phases have.
fn count_calls(phases: &[Phase]) -> usize
    requires { calls_in phases.now ≤ 4096 }
    ensures { result ≡ calls_in phases.now }
{
    let mut count = 0;
    for phase in phases {
        count += phase.calls.len();
    }
    count
}

// Some words, and a number.
fn put_count(
    alloc: Global,
    text: &mut Vec<u8>,
    words: &[u8],
    count: usize,
) -> Result<(), AllocError>
    ensures { OnOk result (text.new.items ≡ text.old.items ++ words.now ++ decimal count) }
{
    text.extend_from_slice(words)?;
    text.extend_from_slice(count.to_string(alloc)?.as_bytes())?;
    Ok(())
}

fn put_counts(
    alloc: Global,
    text: &mut Vec<u8>,
    script: &Script,
    calls: usize,
) -> Result<(), AllocError>
    requires { calls ≡ calls_in script.now.phases }
    ensures { OnOk result (text.new.items ≡ text.old.items ++ check_text script.now) }
{
    put_count(alloc, text, b"ok bricks ", script.bricks.len())?;
    put_count(alloc, text, b" volfiles ", script.volfiles.len())?;
    put_count(alloc, text, b" phases ", script.phases.len())?;
    put_count(alloc, text, b" calls ", calls)?;
    text.extend_from_slice(b"\n")?;
    Ok(())
}

/// The line that `check` writes for an accepted script.
///
/// # Errors
/// Out of memory.
pub fn check_line(alloc: Global, script: &Script) -> Result<Vec<u8>, AllocError>
    requires { calls_in script.now.phases ≤ 4096 }
    ensures { IfOk result (λ text. text.items ≡ check_text script.now) }
{
    let calls = count_calls(script.phases.as_slice());
    let mut text = Vec::new(alloc);
    let done = put_counts(alloc, &mut text, script, calls);
    done.and(Ok(text))
}
