ghost use Rattle.std.specs.Prelude.{◌≡◌, ◌+◌, ◌/◌, ◌%◌, ◌≤◌};

/// How many replicas a set has, and how many are a quorum: an odd number, at most five, and more than half of them.
#[derive(Clone, Copy)]
pub struct Size {
    pub n: u8,
    pub q: u8,
    ghost odd: { n % 2 ≡ 1 },
    ghost few: { n ≤ 5 },
    ghost quorum: { q ≡ (n + 1) / 2 },
}
