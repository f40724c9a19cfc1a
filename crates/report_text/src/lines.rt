ghost use Rattle.std.specs.Prelude.{◌≡◌, ◌++◌, OnOk, flat_map};
ghost use Rattle.report_text.specs.ReportText.{call_line, history_line, entry_line, entry_lines, heal_line, skip_line, drained_word, graph_line};

use crate::calls::ReportCall;
use crate::graphs::ReportGraph;
use crate::text::Text;
use crate::words::cause_name;
use fop_types::{Cell, Seq, SkipCause};
use std::alloc::AllocError;

impl Text {
    pub fn calls(&mut self, calls: &[ReportCall]) -> Result<(), AllocError>
        ensures { OnOk result (self.new ≡ self.old ++ flat_map call_line calls.now) }
    {
        for call in calls {
            self.call(call)?;
        }
        Ok(())
    }

    fn call(&mut self, call: &ReportCall) -> Result<(), AllocError>
        ensures { OnOk result (self.new ≡ self.old ++ call_line call.now) }
    {
        self.put(b"call ")?;
        self.number(call.call as u64)?;
        self.put(b" session ")?;
        self.put(call.session.as_slice())?;
        self.put(b" line ")?;
        self.number(call.line as u64)?;
        self.put(b" places ")?;
        self.places(call.places.as_slice())?;
        self.put(b" ")?;
        self.answer(&call.answer)?;
        self.put(b"\n")
    }

    pub fn history(&mut self, history: &[(u32, u8)]) -> Result<(), AllocError>
        ensures { OnOk result (self.new ≡ self.old ++ history_line history.now ++ entry_lines 1 history.now) }
    {
        self.put(b"history ")?;
        self.number(history.len() as u64)?;
        self.put(b"\n")?;
        self.entries(history)
    }

    #[tactic(auto, using(crate::proofs::Entries::entry_lines_push))]
    fn entries(&mut self, history: &[(u32, u8)]) -> Result<(), AllocError>
        ensures { OnOk result (self.new ≡ self.old ++ entry_lines 1 history.now) }
    {
        for at in 0..history.len() {
            self.entry(at as u64 + 1, history[at])?;
        }
        Ok(())
    }

    fn entry(&mut self, number: u64, entry: (u32, u8)) -> Result<(), AllocError>
        ensures { OnOk result (self.new ≡ self.old ++ entry_line number entry) }
    {
        self.put(b"entry ")?;
        self.number(number)?;
        self.put(b" call ")?;
        self.number(entry.0 as u64)?;
        self.put(b" part ")?;
        self.number(entry.1 as u64)?;
        self.put(b"\n")
    }

    pub fn heals(&mut self, heals: &[(Cell, Seq<u8>, Seq<u8>)]) -> Result<(), AllocError>
        ensures { OnOk result (self.new ≡ self.old ++ flat_map heal_line heals.now) }
    {
        for heal in heals {
            self.heal(heal)?;
        }
        Ok(())
    }

    fn heal(&mut self, heal: &(Cell, Seq<u8>, Seq<u8>)) -> Result<(), AllocError>
        ensures { OnOk result (self.new ≡ self.old ++ heal_line heal.now) }
    {
        self.put(b"heal ")?;
        self.cell(&heal.0)?;
        self.put(b" from ")?;
        self.put(heal.1.as_slice())?;
        self.put(b" to ")?;
        self.put(heal.2.as_slice())?;
        self.put(b"\n")
    }

    pub fn skips(&mut self, skips: &[(Cell, SkipCause)]) -> Result<(), AllocError>
        ensures { OnOk result (self.new ≡ self.old ++ flat_map skip_line skips.now) }
    {
        for skip in skips {
            self.skip(skip)?;
        }
        Ok(())
    }

    fn skip(&mut self, skip: &(Cell, SkipCause)) -> Result<(), AllocError>
        ensures { OnOk result (self.new ≡ self.old ++ skip_line skip.now) }
    {
        self.put(b"skip ")?;
        self.cell(&skip.0)?;
        self.put(b" ")?;
        self.put(cause_name(skip.1).as_bytes())?;
        self.put(b"\n")
    }

    pub fn graphs(&mut self, graphs: &[ReportGraph]) -> Result<(), AllocError>
        ensures { OnOk result (self.new ≡ self.old ++ flat_map graph_line graphs.now) }
    {
        for graph in graphs {
            self.graph(graph)?;
        }
        Ok(())
    }

    fn graph(&mut self, graph: &ReportGraph) -> Result<(), AllocError>
        ensures { OnOk result (self.new ≡ self.old ++ graph_line graph.now) }
    {
        self.put(b"graph ")?;
        self.number(graph.graph as u64)?;
        self.put(b" ")?;
        self.put(graph.name.as_slice())?;
        self.put(b" winds ")?;
        self.number(graph.opened as u64)?;
        self.put(b" ended ")?;
        self.number(graph.ended as u64)?;
        self.put(b" ")?;
        self.put(drained(graph).as_bytes())?;
        self.put(b"\n")
    }
}

fn drained(graph: &ReportGraph) -> &'static str
    ensures { result.now ≡ drained_word graph.now }
{
    if graph.opened == graph.ended {
        "drained"
    } else {
        "open"
    }
}
