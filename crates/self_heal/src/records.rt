ghost use Rattle.std.specs.Prelude.{◌≡◌, ◌++◌, ◌∷◌, [], IfOk, OnOk};
ghost use Rattle.self_heal.specs.Records.{is_cell, rows_for, origin_at, record_of, record_at, records_of_cell, records_from};

use crate::run::CopyRun;
use crate::stage::Origin;
use afr_phases::Flags;
use fop_types::{Cell, CopyRecord, Seq, SplitRow};
use std::alloc::{AllocError, Global};

impl CopyRun {
    /// One record for each cell and each of these sinks.
    ///
    /// # Errors
    /// Out of memory.
    pub(crate) fn records(&self, alloc: Global, sinks: Flags) -> Result<Seq<CopyRecord>, AllocError>
        ensures { IfOk result (λ list. list ≡ records_from self.now.rows self.now.origins sinks 0 self.now.job.cells) }
    {
        let mut list = Vec::new(alloc);
        let cells = self.job.cells.as_slice();
        for c in 0..cells.len() {
            self.push_cell(alloc, &mut list, cells[c], c, sinks)?;
        }
        Ok(Seq::from_vec(list))
    }

    fn push_cell(
        &self,
        alloc: Global,
        list: &mut Vec<CopyRecord>,
        cell: Cell,
        c: usize,
        sinks: Flags,
    ) -> Result<(), AllocError>
        ensures { OnOk result (list.new.items ≡ list.old.items ++ records_of_cell self.now.rows self.now.origins sinks c cell) }
    {
        let [first, second, third, fourth, fifth] = sinks;
        self.push_record(alloc, list, cell, c, 0, first)?;
        self.push_record(alloc, list, cell, c, 1, second)?;
        self.push_record(alloc, list, cell, c, 2, third)?;
        self.push_record(alloc, list, cell, c, 3, fourth)?;
        self.push_record(alloc, list, cell, c, 4, fifth)?;
        Ok(())
    }

    fn push_record(
        &self,
        alloc: Global,
        list: &mut Vec<CopyRecord>,
        cell: Cell,
        c: usize,
        sink: u8,
        has: bool,
    ) -> Result<(), AllocError>
        ensures { OnOk result (list.new.items ≡ list.old.items ++ record_at self.now.rows self.now.origins cell c sink has) }
    {
        if !has {
            return Ok(());
        }
        let rows = rows_for(alloc, self.rows.as_slice(), &cell)?;
        let origin = origin_at(self.origins.as_slice(), c);
        list.push(CopyRecord {
            cell,
            source: origin.source,
            sink,
            rows,
            last: origin.last,
        })?;
        Ok(())
    }
}

fn origin_at(origins: &[Origin], c: usize) -> Origin
    ensures { result ≡ origin_at origins.now c }
{
    match origins.get(c) {
        Some(origin) => *origin,
        None => Origin { source: 0, last: 0 },
    }
}

// The rows of one cell.
#[tactic(auto, unfolding(crate::specs::Records::rows_for))]
fn rows_for(alloc: Global, rows: &[SplitRow], cell: &Cell) -> Result<Seq<SplitRow>, AllocError>
    ensures { IfOk result (λ list. list ≡ rows_for cell.now rows.now) }
{
    let mut list = Vec::new(alloc);
    for row in rows {
        push_row(&mut list, *row, cell)?;
    }
    Ok(Seq::from_vec(list))
}

#[tactic(auto, unfolding(crate::specs::Records::rows_for))]
fn push_row(list: &mut Vec<SplitRow>, row: SplitRow, cell: &Cell) -> Result<(), AllocError>
    ensures { OnOk result (list.new.items ≡ list.old.items ++ rows_for cell.now (row ∷ [])) }
{
    if is_cell(&row.cell, cell) {
        list.push(row)?;
    }
    Ok(())
}

fn is_cell(a: &Cell, b: &Cell) -> bool
    ensures { result ≡ is_cell a.now b.now }
{
    a.gfid.hi == b.gfid.hi && a.gfid.lo == b.gfid.lo && a.aspect.rank() == b.aspect.rank()
}
