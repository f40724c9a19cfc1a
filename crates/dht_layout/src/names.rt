ghost use Rattle.std.specs.Prelude.{◌≡◌};
ghost use Rattle.dht_layout.specs.Hashes.{name_hash};

/// The number that a hash begins with.
const OFFSET_BASIS: u32 = 2166136261;

/// The number that it is multiplied by after each byte.
const PRIME: u32 = 16777619;

/// The hash of a name, FNV-1a of 32 bits.
pub fn hash(name: &[u8]) -> u32
    ensures { result ≡ name_hash name.now }
{
    let mut hash = OFFSET_BASIS;
    for byte in name {
        hash = (hash ^ u32::from(*byte)).wrapping_mul(PRIME);
    }
    hash
}
