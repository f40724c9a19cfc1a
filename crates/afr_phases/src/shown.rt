ghost use Rattle.std.specs.Prelude.{◌≡◌, ◌+◌, ◌*◌, ◌/◌, ◌%◌, ◌<◌, ◌≤◌, ◌++◌, IfOk, OnOk, OnErr, length, slice_get, slice_index};
ghost use Rattle.afr_phases.specs.Shown.{nothing_shown, with_rows, reaching, shown_at, sound_at, sound_flags, rows_of_cell, row_listed, rows_listed};

use crate::flags::{Flags, flags_of};
use afr_changelog::sound;
use fop_types::{Cell, Row, Seq, SplitRow};
use std::alloc::{AllocError, Global};

/// What the replicas showed with their locks: a row for each cell of the lock phase. `reached` are the replicas that
/// belong to the reached set; of the others the rows do not count.
#[derive(Drop)]
pub struct Shown {
    pub rows: [Option<Seq<Row>>; 5],
    pub reached: [bool; 5],
}

impl Shown {
    /// Nothing is shown yet.
    pub fn new() -> Shown
        ensures { result ≡ nothing_shown }
    {
        Shown {
            rows: [None, None, None, None, None],
            reached: [false; 5],
        }
    }

    /// A replica shows its rows.
    pub fn put(&mut self, k: u8, rows: Seq<Row>)
        requires { k < 5 }
        ensures { self.new ≡ with_rows self.old k rows }
    {
        self.rows[k as usize] = Some(rows);
    }

    /// The reached set is these replicas.
    pub fn reach(&mut self, reached: Flags)
        ensures { self.new ≡ reaching self.old reached }
    {
        self.reached = reached;
    }

    /// The row of the `c`-th cell that a reached replica showed.
    pub fn row(&self, c: usize, k: u8) -> Option<Row>
        requires { k < 5 }
        ensures { result ≡ shown_at self.now c k }
    {
        if !self.reached[k as usize] {
            return None;
        }
        match &self.rows[k as usize] {
            Some(rows) => rows.as_slice().get(c).copied(),
            None => None,
        }
    }

    /// The reached replicas whose copy of the `c`-th cell is sound.
    pub fn sound(&self, c: usize, n: u8, q: u8) -> Flags
        requires odd { n % 2 ≡ 1 }
        requires few { n ≤ 5 }
        requires quorum { q ≡ (n + 1) / 2 }
        ensures { result ≡ sound_at self.now c n q }
    {
        let rows = [
            self.row(c, 0),
            self.row(c, 1),
            self.row(c, 2),
            self.row(c, 3),
            self.row(c, 4),
        ];
        sound_flags(&rows[..n as usize], n, q)
    }

    /// The rows of cells that the reached replicas showed, by cell and then by replica; `names` has the number that
    /// is written for each replica.
    ///
    /// # Errors
    /// Out of memory.
    pub fn list(
        &self,
        alloc: Global,
        cells: &[Cell],
        names: &[u8],
    ) -> Result<Seq<SplitRow>, AllocError>
        ensures { IfOk result (λ list. list ≡ rows_listed self.now names.now 0 cells.now) }
    {
        let mut list = Vec::new(alloc);
        let mut c = 0;
        for cell in cells {
            self.push_cell(&mut list, *cell, c, names)?;
            c += 1;
        }
        Ok(Seq::from_vec(list))
    }

    /// Puts the rows of one cell, the `c`-th, to the end of a list, as [`Shown::list`] does.
    ///
    /// # Errors
    /// Out of memory.
    pub fn push_cell(
        &self,
        list: &mut Vec<SplitRow>,
        cell: Cell,
        c: usize,
        names: &[u8],
    ) -> Result<(), AllocError>
        ensures { OnOk result (list.new.items ≡ list.old.items ++ rows_of_cell self.now names.now c cell) }
    {
        self.push_row(list, cell, c, 0, names)?;
        self.push_row(list, cell, c, 1, names)?;
        self.push_row(list, cell, c, 2, names)?;
        self.push_row(list, cell, c, 3, names)?;
        self.push_row(list, cell, c, 4, names)?;
        Ok(())
    }

    fn push_row(
        &self,
        list: &mut Vec<SplitRow>,
        cell: Cell,
        c: usize,
        k: u8,
        names: &[u8],
    ) -> Result<(), AllocError>
        requires { k < 5 }
        ensures { OnOk result (list.new.items ≡ list.old.items ++ row_listed self.now names.now c cell k) }
    {
        let Some(row) = self.row(c, k) else {
            return Ok(());
        };
        let brick = name_of(names, k);
        list.push(SplitRow { cell, brick, row })?;
        Ok(())
    }
}

fn name_of(names: &[u8], k: u8) -> u8
    ensures { result ≡ slice_index names.now k }
{
    match names.get(k as usize) {
        Some(name) => *name,
        None => 0,
    }
}

/// The replicas whose copy is sound by the rows of one cell.
fn sound_flags(rows: &[Option<Row>], n: u8, q: u8) -> Flags
    requires odd { n % 2 ≡ 1 }
    requires few { n ≤ 5 }
    requires quorum { q ≡ (n + 1) / 2 }
    requires places { length rows.now ≡ n }
    ensures { result ≡ sound_flags rows.now n q }
{
    flags_of(sound(rows, n, q))
}
