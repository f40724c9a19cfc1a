ghost use Rattle.std.specs.Prelude.{◌≡◌, ◌≤◌, ◌&&◌, length};
ghost use Rattle.volfile.specs.Options.{last_value};
ghost use Rattle.volfile.specs.TextLines.{is_text};
ghost use Rattle.graph_build.specs.VolumeRules.{brick_at as brick_at_of, brick_of as brick_of_options, is_bad_replica as is_bad, is_given as is_given_of, is_not_auto as is_other_quorum, is_one_of as is_one_of_words, is_other as is_other_word, is_pass as is_pass_type, pages_of as pages_of_options, scaled as scaled_by, size_of as size_of_text, size_with as size_with_unit, within_pages as within_limits, pages_in};

use volfile::{BrickLine, Volume, is_same, option_value};
use xl_base::decimal;

// Whether a type hands fops through.
#[tactic(auto, unfolding(crate::specs::VolumeRules::is_pass))]
pub(crate) fn is_pass(kind: &[u8]) -> bool
    ensures { result ≡ is_pass_type kind.now }
{
    is_same(kind, b"performance/write-behind")
        || is_same(kind, b"performance/read-ahead")
        || is_same(kind, b"performance/readdir-ahead")
        || is_same(kind, b"performance/open-behind")
        || is_same(kind, b"performance/quick-read")
        || is_same(kind, b"performance/md-cache")
        || is_same(kind, b"performance/nl-cache")
        || is_same(kind, b"features/utime")
        || is_same(kind, b"debug/io-stats")
}

fn is_other(volume: &Volume, key: &[u8], word: &[u8]) -> bool
    ensures { result ≡ is_other_word (last_value volume.now.options key.now) word.now }
{
    match option_value(volume, key) {
        None => false,
        Some(value) => !is_same(value.as_slice(), word),
    }
}

fn is_given(volume: &Volume, key: &[u8]) -> bool
    ensures { result ≡ is_given_of (last_value volume.now.options key.now) }
{
    match option_value(volume, key) {
        None => false,
        Some(_) => true,
    }
}

// Whether a replicate volume has another number of subvolumes than three, or an arbiter.
#[tactic(auto, unfolding(crate::specs::VolumeRules::is_bad_replica))]
pub(crate) fn is_bad_replica(volume: &Volume) -> bool
    ensures { result ≡ is_bad (length volume.now.subvolumes) volume.now.options }
{
    volume.subvolumes.len() != 3
        || is_other(volume, b"arbiter-count", b"0")
        || is_given(volume, b"thin-arbiter")
}

// Whether its quorum is of another type than `auto`.
#[tactic(auto, unfolding(crate::specs::VolumeRules::is_not_auto))]
pub(crate) fn is_not_auto(volume: &Volume) -> bool
    ensures { result ≡ is_other_quorum volume.now.options }
{
    is_other(volume, b"quorum-type", b"auto")
}

// The number of the brick at a host and path.
fn brick_at(host: &[u8], path: &[u8], bricks: &[BrickLine]) -> Option<u8>
    requires few { length bricks.now ≤ 60 }
    ensures { result ≡ brick_at_of host.now path.now bricks.now }
{
    let mut number = 0;
    while number < bricks.len() {
        let brick = &bricks[number];
        if is_brick_at(brick, host, path) {
            return Some(number as u8);
        }
        number += 1;
    }
    None
}

fn is_brick_at(brick: &BrickLine, host: &[u8], path: &[u8]) -> bool
    ensures { result ≡ (is_text brick.now.host host.now && is_text brick.now.path path.now) }
{
    is_same(brick.host.as_slice(), host) && is_same(brick.path.as_slice(), path)
}

// The number of the brick that a client's options name.
#[tactic(auto, unfolding(crate::specs::VolumeRules::brick_of))]
pub(crate) fn brick_of(volume: &Volume, bricks: &[BrickLine]) -> Option<u8>
    requires few { length bricks.now ≤ 60 }
    ensures { result ≡ brick_of_options volume.now.options bricks.now }
{
    match option_value(volume, b"remote-host") {
        None => None,
        Some(host) => match option_value(volume, b"remote-subvolume") {
            None => None,
            Some(path) => brick_at(host.as_slice(), path.as_slice(), bricks),
        },
    }
}

// The pages of a volume's cache.
#[tactic(auto, unfolding(crate::specs::VolumeRules::pages_of))]
pub(crate) fn pages_of(volume: &Volume) -> Option<u32>
    ensures { result ≡ pages_of_options volume.now.options }
{
    match option_value(volume, b"cache-size") {
        None => Some(8192),
        Some(value) => pages_given(value.as_slice()),
    }
}

fn pages_given(value: &[u8]) -> Option<u32>
    ensures { result ≡ pages_in (size_of_text value.now) }
{
    match size_of(value) {
        None => None,
        Some(bytes) => Some(within_pages(bytes / 4096)),
    }
}

fn within_pages(pages: u64) -> u32
    ensures { result ≡ within_limits pages }
{
    if pages < 1 {
        return 1;
    }
    if 8192 < pages {
        return 8192;
    }
    pages as u32
}

fn size_of(value: &[u8]) -> Option<u64>
    ensures { result ≡ size_of_text value.now }
{
    let end = value.len().saturating_sub(2);
    size_with(value, &value[..end], &value[end..])
}

fn size_with(value: &[u8], front: &[u8], unit: &[u8]) -> Option<u64>
    ensures { result ≡ size_with_unit value.now front.now unit.now }
{
    if is_same(unit, b"KB") {
        return scaled(decimal(front), 1024);
    }
    if is_same(unit, b"MB") {
        return scaled(decimal(front), 1048576);
    }
    if is_same(unit, b"GB") {
        return scaled(decimal(front), 1073741824);
    }
    decimal(value)
}

fn scaled(number: Option<u64>, unit: u64) -> Option<u64>
    ensures { result ≡ scaled_by number unit }
{
    match number {
        None => None,
        Some(number) => number.checked_mul(unit),
    }
}
