ghost use Rattle.std.specs.Prelude.{◌≡◌};
ghost use Rattle.afr_changelog.specs.Bytes.{encoded, counters_in};

/// The counters of data, metadata and entries that a changelog attribute's value encodes.
pub fn read12(bytes: &[u8; 12]) -> [u32; 3]
    ensures counters { result ≡ counters_in bytes.now }
    ensures encoding { encoded result ≡ bytes.now }
{
    [
        u32::from_be_bytes([bytes[0], bytes[1], bytes[2], bytes[3]]),
        u32::from_be_bytes([bytes[4], bytes[5], bytes[6], bytes[7]]),
        u32::from_be_bytes([bytes[8], bytes[9], bytes[10], bytes[11]]),
    ]
}

/// The value of a changelog attribute with these counters of data, metadata and entries.
pub fn write12(counters: [u32; 3]) -> [u8; 12]
    ensures encoding { result ≡ encoded counters }
    ensures counters { counters_in result ≡ counters }
{
    let [data, meta, entry] = counters;
    let mut bytes = [0; 12];
    bytes[..4].copy_from_slice(&data.to_be_bytes());
    bytes[4..8].copy_from_slice(&meta.to_be_bytes());
    bytes[8..].copy_from_slice(&entry.to_be_bytes());
    bytes
}
