ghost use Rattle.std.specs.Prelude.{◌≡◌, ℕ, ◌<◌, ◌≤◌};
ghost use Rattle.afr_phases.specs.Flags.{flag, names, flags_of, mask_of, lowest, bit, both, but_for, outside};

use fop_types::Mask;

/// One answer for each replica of a set, of which there are at most five.
pub type Flags = [bool; 5];

/// Whether a mask names a replica.
pub fn names(mask: Mask, k: u8) -> bool
    requires { k < 8 }
    ensures { result ≡ names mask k }
{
    mask.0 & (1 << k) != 0
}

/// Which replicas a mask names.
pub fn flags_of(mask: Mask) -> Flags
    ensures { result ≡ flags_of mask }
{
    [
        names(mask, 0),
        names(mask, 1),
        names(mask, 2),
        names(mask, 3),
        names(mask, 4),
    ]
}

/// The mask that names these replicas.
pub fn mask_of(flags: Flags) -> Mask
    ensures mask { result ≡ mask_of flags }
    ensures names { (k : ℕ) → k < 5 → names result k ≡ flag flags k }
    ensures small { result.0 ≤ 31 }
{
    let [a, b, c, d, e] = flags;
    Mask(bit(a) + 2 * bit(b) + 4 * bit(c) + 8 * bit(d) + 16 * bit(e))
}

fn bit(flag: bool) -> u8
    ensures bit { result ≡ bit flag }
    ensures small { result ≤ 1 }
{
    if flag { 1 } else { 0 }
}

/// The replicas that are in both.
pub fn both(flags: Flags, others: Flags) -> Flags
    ensures { result ≡ both flags others }
{
    let [a, b, c, d, e] = flags;
    let [f, g, h, i, j] = others;
    [a && f, b && g, c && h, d && i, e && j]
}

/// The replicas that are in the first and not in the second.
pub fn but_for(flags: Flags, others: Flags) -> Flags
    ensures { result ≡ but_for flags others }
{
    let [a, b, c, d, e] = flags;
    let [f, g, h, i, j] = others;
    [a && !f, b && !g, c && !h, d && !i, e && !j]
}

/// The replicas of a set of `n` that are not among these.
pub fn outside(n: u8, flags: Flags) -> Flags
    ensures { result ≡ outside n flags }
{
    let [a, b, c, d, e] = flags;
    [
        n > 0 && !a,
        n > 1 && !b,
        n > 2 && !c,
        n > 3 && !d,
        n > 4 && !e,
    ]
}

/// The lowest replica of which the flag is true.
pub fn lowest(flags: &Flags) -> Option<u8>
    ensures { result ≡ lowest flags.now }
{
    let [a, b, c, d, e] = *flags;
    if a {
        return Some(0);
    }
    if b {
        return Some(1);
    }
    if c {
        return Some(2);
    }
    if d {
        return Some(3);
    }
    if e { Some(4) } else { None }
}
