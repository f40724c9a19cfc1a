ghost use Rattle.std.specs.Prelude.{◌≡◌, ℕ, ◌+◌, ◌-◌, ◌/◌, ◌%◌, ◌<◌, ◌≤◌, ◌↔◌, IsTrue, length};
ghost use Rattle.afr_changelog.specs.Soundness.{reached_in, accuses, accusers_of, IsSound};
ghost use Rattle.afr_changelog.specs.Conviction.{TrustsNoConvict, NamesTheCleared, KeepsAMember};
ghost use Rattle.afr_changelog.specs.Masks.{Names};

use fop_types::{Mask, Row};

/// The reached replicas whose copy of a cell is sound.
///
/// `rows` has one place for each of the set's `n` replicas, with the cell's row where the replica was
/// reached, and `q` is the set's quorum. A replica is unsound where its row is not present, or it
/// accuses itself, or at least as many of the reached replicas accuse it as were reached, less
/// `n - q`. So with all reached it takes a quorum of accusers, and with `n - q` reached or fewer none
/// is sound.
pub fn sound(rows: &[Option<Row>], n: u8, q: u8) -> Mask
    requires odd { n % 2 ≡ 1 }
    requires few { n ≤ 5 }
    requires quorum { q ≡ (n + 1) / 2 }
    requires places { length rows.now ≡ n }
    ensures sound { (k : ℕ) → Names result k ↔ IsSound rows.now n q k }
    ensures unconvicted { TrustsNoConvict rows.now q result }
    ensures cleared { NamesTheCleared rows.now n q result }
    ensures member { KeepsAMember rows.now n q result }
{
    let mut mask = 0;
    for k in 0..n {
        if is_sound(rows, n, q, k) {
            mask |= 1 << k;
        }
    }
    Mask(mask)
}

fn is_sound(rows: &[Option<Row>], n: u8, q: u8, k: u8) -> bool
    requires few { n ≤ 5 }
    requires quorum { q ≤ n }
    requires places { length rows.now ≡ n }
    requires within { k < n }
    ensures { IsTrue result ↔ IsSound rows.now n q k }
{
    match rows[k as usize] {
        Some(row) => {
            row.present
                && row.pending[k as usize] == 0
                && accusers(rows, k) + (n as usize - q as usize) < reached(rows)
        }
        None => false,
    }
}

fn reached(rows: &[Option<Row>]) -> usize
    ensures { result ≡ reached_in rows.now }
{
    rows.iter().filter(|row| row.is_some()).count()
}

fn accusers(rows: &[Option<Row>], k: u8) -> usize
    requires { k < 5 }
    ensures { result ≡ accusers_of rows.now k }
{
    rows.iter().filter(|row| accuses(row, k)).count()
}

fn accuses(row: &Option<Row>, k: u8) -> bool
    requires { k < 5 }
    ensures { result ≡ accuses k row.now }
{
    match row {
        Some(row) => row.pending[k as usize] != 0,
        None => false,
    }
}
