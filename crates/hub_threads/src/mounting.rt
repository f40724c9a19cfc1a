//! Which script a mount runs, for clauses alone.

use std::marker::Brand;

/// The script that a mount runs, with the plans of its volfiles. Each mount picks it; its desk keeps it.
pub trait Mounting {
    ghost use Rattle.std.specs.Prelude.{List};
    ghost use Rattle.graph_build.specs.declared.plans.Plan.{Plan};
    ghost use Rattle.script_lang.specs.declared.scripts.Script.{Script};

    ghost script: { Script };

    ghost plans: { List Plan };
}

impl Mounting for Brand {
    ghost use Rattle.std.specs.Prelude.{[]};

    ghost script = { record { bricks = []; volfiles = []; start = 0; sessions = []; phases = [] } };

    ghost plans = { [] };
}
