ghost use Rattle.std.specs.Prelude.{◌≡◌, ◌≢◌, ℕ, ◌+◌, ◌*◌, ◌<◌, ◌≤◌, ◌↔◌, IsTrue, MatchBool, length};
ghost use Rattle.lane_scan.specs.Blocks.{piece, MarksDifferences, IsZero};

use std::simd::prelude::*;

/// Where two blocks differ: bit k is set exactly where their k-th 64 bytes do.
pub fn differ(a: &[u8; 4096], b: &[u8; 4096]) -> u64
    ensures marks { MarksDifferences a.now b.now result }
    ensures same { (result ≡ 0) ↔ (a.now ≡ b.now) }
{
    let mut bits = 0;
    for k in 0..64 {
        if piece_differs(a, b, k) {
            bits |= 1 << k;
        }
    }
    bits
}

/// True exactly where each byte of the block is zero.
pub fn all_zero(block: &[u8; 4096]) -> bool
    ensures { IsTrue result ↔ IsZero block.now }
{
    for k in 0..64 {
        if !piece_is_zero(block, k) {
            return false;
        }
    }
    true
}

#[inline(always)]
fn piece_differs(a: &[u8], b: &[u8], k: usize) -> bool
    requires a { 64 * k + 64 ≤ length a.now }
    requires b { 64 * k + 64 ≤ length b.now }
    ensures { MatchBool result (piece k a.now ≢ piece k b.now) (piece k a.now ≡ piece k b.now) }
{
    let left = u8x64::from_slice(&a[64 * k..]);
    let right = u8x64::from_slice(&b[64 * k..]);
    left.simd_ne(right).to_bitmask() != 0
}

#[inline(always)]
fn piece_is_zero(block: &[u8], k: usize) -> bool
    requires { 64 * k + 64 ≤ length block.now }
    ensures { IsTrue result ↔ IsZero (piece k block.now) }
{
    let lanes = u8x64::from_slice(&block[64 * k..]);
    lanes.simd_ne(u8x64::splat(0)).to_bitmask() == 0
}
