ghost use Rattle.std.specs.Prelude.{◌≡◌, ◌++◌, OnOk, flat_map};
ghost use Rattle.report_text.specs.AnswerText.{answer_text, io_text, item_text, brick_text, lost_text, losses_text, present_word, row_text, counts_text, not_connected, input_output};

use crate::answers::ReportAnswer;
use crate::faults::{ReportIo, ReportRow};
use crate::text::Text;
use crate::words::kind_name;
use fop_types::{Kind, Seq};
use std::alloc::AllocError;

impl Text {
    /// An answer, in any of its forms.
    pub fn answer(&mut self, answer: &ReportAnswer) -> Result<(), AllocError>
        ensures { OnOk result (self.new ≡ self.old ++ answer_text answer.now) }
    {
        match answer {
            ReportAnswer::Done => self.put(b"ok"),
            ReportAnswer::Count(count) => {
                self.put(b"ok ")?;
                self.number(*count as u64)
            }
            ReportAnswer::Bytes(bytes) => {
                self.put(b"ok x:")?;
                self.hex_bytes(bytes.as_slice())
            }
            ReportAnswer::Stat { kind, mode, size } => {
                self.put(b"ok ")?;
                self.put(kind_name(*kind).as_bytes())?;
                self.put(b" ")?;
                self.octal(*mode)?;
                self.put(b" ")?;
                self.number(*size as u64)
            }
            ReportAnswer::List(items) => {
                self.put(b"ok ")?;
                self.number(items.len() as u64)?;
                self.items(items.as_slice())
            }
            ReportAnswer::App(error) => {
                self.put(b"error ")?;
                self.number(error.number() as u64)?;
                self.put(b" ")?;
                self.put(error.name().as_bytes())
            }
            ReportAnswer::Io(io) => self.io(io),
        }
    }

    fn items(&mut self, items: &[(Seq<u8>, Kind)]) -> Result<(), AllocError>
        ensures { OnOk result (self.new ≡ self.old ++ flat_map item_text items.now) }
    {
        for item in items {
            self.put(b" ")?;
            self.put(item.0.as_slice())?;
            self.put(b"/")?;
            self.put(kind_name(item.1).as_bytes())?;
        }
        Ok(())
    }

    fn io(&mut self, io: &ReportIo) -> Result<(), AllocError>
        ensures { OnOk result (self.new ≡ self.old ++ io_text io.now) }
    {
        match io {
            ReportIo::Quorum { set, lost } => {
                self.not_connected()?;
                self.put(b"quorum ")?;
                self.put(set.as_slice())?;
                self.lost(lost.as_slice())
            }
            ReportIo::Split { set, rows } => {
                self.input_output()?;
                self.put(b"split ")?;
                self.put(set.as_slice())?;
                self.rows(rows.as_slice())
            }
            ReportIo::Fault { set, faults, lost } => {
                self.input_output()?;
                self.put(b"fault ")?;
                self.put(set.as_slice())?;
                self.put(b" fault")?;
                self.faults(faults.as_slice())?;
                self.losses(lost.as_slice())
            }
        }
    }

    #[tactic(auto, unfolding(crate::specs::AnswerText::not_connected))]
    fn not_connected(&mut self) -> Result<(), AllocError>
        ensures { OnOk result (self.new ≡ self.old ++ not_connected) }
    {
        self.put(b"error 107 ENOTCONN ")
    }

    #[tactic(auto, unfolding(crate::specs::AnswerText::input_output))]
    fn input_output(&mut self) -> Result<(), AllocError>
        ensures { OnOk result (self.new ≡ self.old ++ input_output) }
    {
        self.put(b"error 5 EIO ")
    }

    fn lost(&mut self, lost: &[(Seq<u8>, u32)]) -> Result<(), AllocError>
        ensures { OnOk result (self.new ≡ self.old ++ lost_text lost.now) }
    {
        self.put(b" lost")?;
        for brick in lost {
            self.brick(&brick.0, brick.1 as u64)?;
        }
        Ok(())
    }

    fn losses(&mut self, lost: &[(Seq<u8>, u32)]) -> Result<(), AllocError>
        ensures { OnOk result (self.new ≡ self.old ++ losses_text lost.now) }
    {
        if lost.is_empty() {
            return Ok(());
        }
        self.lost(lost)
    }

    fn faults(&mut self, faults: &[(Seq<u8>, u64)]) -> Result<(), AllocError>
        ensures { OnOk result (self.new ≡ self.old ++ flat_map brick_text faults.now) }
    {
        for brick in faults {
            self.brick(&brick.0, brick.1)?;
        }
        Ok(())
    }

    fn brick(&mut self, name: &Seq<u8>, number: u64) -> Result<(), AllocError>
        ensures { OnOk result (self.new ≡ self.old ++ brick_text (name.now, number)) }
    {
        self.put(b" ")?;
        self.put(name.as_slice())?;
        self.put(b":")?;
        self.number(number)
    }

    fn rows(&mut self, rows: &[ReportRow]) -> Result<(), AllocError>
        ensures { OnOk result (self.new ≡ self.old ++ flat_map row_text rows.now) }
    {
        for row in rows {
            self.row(row)?;
        }
        Ok(())
    }

    fn row(&mut self, row: &ReportRow) -> Result<(), AllocError>
        ensures { OnOk result (self.new ≡ self.old ++ row_text row.now) }
    {
        self.put(b" row ")?;
        self.cell(&row.cell)?;
        self.put(b" ")?;
        self.put(row.brick.as_slice())?;
        self.counts(row)
    }

    #[tactic(auto, unfolding(crate::specs::AnswerText::counts_text))]
    fn counts(&mut self, row: &ReportRow) -> Result<(), AllocError>
        ensures { OnOk result (self.new ≡ self.old ++ counts_text row.now) }
    {
        self.put(b" ")?;
        self.put(presence(row.present).as_bytes())?;
        self.put(b" ")?;
        self.number(row.dirty as u64)?;
        self.put(b" ")?;
        self.numbers(row.pending.as_slice())?;
        self.put(b" ")?;
        self.number(row.last)
    }
}

fn presence(present: bool) -> &'static str
    ensures { result.now ≡ present_word present }
{
    if present { "1" } else { "0" }
}
