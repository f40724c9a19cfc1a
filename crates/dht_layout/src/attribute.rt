ghost use Rattle.std.specs.Prelude.{◌≡◌, ◌≤◌, Some, IfSome};
ghost use Rattle.dht_layout.specs.Bytes.{encoded, span_in};

use fop_types::Span;

/// The value of the layout attribute of a directory's copy that has this range: 16 bytes, as `read16`
/// reads them.
pub fn write16(span: Span) -> [u8; 16]
    ensures encoding { result ≡ encoded span }
    ensures read { span.first ≤ span.last → span_in result ≡ Some span }
{
    let mut bytes = [0; 16];
    bytes[..4].copy_from_slice(&1u32.to_be_bytes());
    bytes[8..12].copy_from_slice(&span.first.to_be_bytes());
    bytes[12..].copy_from_slice(&span.last.to_be_bytes());
    bytes
}

/// The range that a layout attribute's value encodes; `None` exactly where its first two numbers are not
/// 1 and 0, or the range is reversed.
pub fn read16(bytes: &[u8; 16]) -> Option<Span>
    ensures span { result ≡ span_in bytes.now }
    ensures encoding { IfSome result (λ span. encoded span ≡ bytes.now) }
{
    let head = u32::from_be_bytes([bytes[0], bytes[1], bytes[2], bytes[3]]);
    let kind = u32::from_be_bytes([bytes[4], bytes[5], bytes[6], bytes[7]]);
    let first = u32::from_be_bytes([bytes[8], bytes[9], bytes[10], bytes[11]]);
    let last = u32::from_be_bytes([bytes[12], bytes[13], bytes[14], bytes[15]]);
    if head == 1 && kind == 0 && first <= last {
        Some(Span { first, last })
    } else {
        None
    }
}
