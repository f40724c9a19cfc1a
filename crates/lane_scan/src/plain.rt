//! The scans byte by byte, as their definition says them.
ghost use Rattle.std.specs.Prelude.{◌≡◌, ◌≢◌, ℕ, ◌+◌, ◌*◌, ◌<◌, ◌≤◌, ◌↔◌, IsTrue, MatchBool, length};
ghost use Rattle.lane_scan.specs.Blocks.{piece, MarksDifferences, IsZero};

/// Where two blocks differ: bit k is set exactly where their k-th 64 bytes do.
pub fn differ(a: &[u8; 4096], b: &[u8; 4096]) -> u64
    ensures marks { MarksDifferences a.now b.now result }
    ensures same { (result ≡ 0) ↔ (a.now ≡ b.now) }
{
    let mut bits = 0;
    for k in 0..64 {
        if piece_differs(a, b, k) {
            bits |= 1 << k;
        }
    }
    bits
}

/// True exactly where each byte of the block is zero.
pub fn all_zero(block: &[u8; 4096]) -> bool
    ensures { IsTrue result ↔ IsZero block.now }
{
    for byte in block {
        if *byte != 0 {
            return false;
        }
    }
    true
}

fn piece_differs(a: &[u8], b: &[u8], k: usize) -> bool
    requires a { 64 * k + 64 ≤ length a.now }
    requires b { 64 * k + 64 ≤ length b.now }
    ensures { MatchBool result (piece k a.now ≢ piece k b.now) (piece k a.now ≡ piece k b.now) }
{
    for i in 64 * k..64 * k + 64 {
        if a[i] != b[i] {
            return true;
        }
    }
    false
}
