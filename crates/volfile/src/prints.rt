ghost use Rattle.std.specs.Prelude.{◌≡◌, ◌++◌, ◌||◌, flat_map, not, OnOk, IfOk};
ghost use Rattle.std.specs.List.{list_all};
ghost use Rattle.volfile.specs.VolfilePrint.{line_text, needs_quotes as are_quotes_needed, option_text, stands_alone, subvolumes_text, value_text, volume_text, volumes_text, word_text};
ghost use Rattle.volfile.specs.Volumes.{IsVolfile, ReadsAs};

use crate::cuts::is_blank;
use crate::volumes::{OptionLine, Volfile, Volume};
use fop_types::Seq;
use std::alloc::{AllocError, Global};

/// The one form of a volfile, in time and memory of its length. The volfile is, but for line numbers,
/// one that [`parse`](crate::parse) gives, and `parse` of the text gives its volumes but for line numbers.
///
/// # Errors
/// Out of memory.
pub fn print(alloc: Global, v: &Volfile) -> Result<Vec<u8>, AllocError>
    requires volfile { IsVolfile v.now }
    ensures text { IfOk result (λ text. text.items ≡ volumes_text v.now.volumes) }
    ensures reads_back { IfOk result (λ text. ReadsAs text.items v.now) }
{
    let text = text_of(alloc, v.volumes.as_slice())?;
    Ok(text)
}

fn text_of(alloc: Global, volumes: &[Volume]) -> Result<Vec<u8>, AllocError>
    ensures { IfOk result (λ text. text.items ≡ volumes_text volumes.now) }
{
    let mut text = Vec::new(alloc);
    for volume in volumes {
        put_volume(&mut text, volume)?;
    }
    Ok(text)
}

#[tactic(auto, unfolding(crate::specs::VolfilePrint::volume_text))]
fn put_volume(text: &mut Vec<u8>, volume: &Volume) -> Result<(), AllocError>
    ensures { OnOk result (text.new.items ≡ text.old.items ++ volume_text volume.now) }
{
    put_line(text, b"volume ", volume.name.as_slice())?;
    put_line(text, b"type ", volume.kind.as_slice())?;
    put_options(text, volume.options.as_slice())?;
    put_subvolumes(text, volume.subvolumes.as_slice())?;
    put_line(text, b"end-volume", b"")?;
    Ok(())
}

#[tactic(auto, unfolding(crate::specs::VolfilePrint::line_text))]
fn put_line(text: &mut Vec<u8>, front: &[u8], word: &[u8]) -> Result<(), AllocError>
    ensures { OnOk result (text.new.items ≡ text.old.items ++ line_text front.now word.now) }
{
    text.extend_from_slice(front)?;
    text.extend_from_slice(word)?;
    text.push(b'\n')?;
    Ok(())
}

fn put_options(text: &mut Vec<u8>, options: &[OptionLine]) -> Result<(), AllocError>
    ensures { OnOk result (text.new.items ≡ text.old.items ++ flat_map option_text options.now) }
{
    for option in options {
        put_option(text, option)?;
    }
    Ok(())
}

#[tactic(auto, unfolding(crate::specs::VolfilePrint::option_text))]
fn put_option(text: &mut Vec<u8>, option: &OptionLine) -> Result<(), AllocError>
    ensures { OnOk result (text.new.items ≡ text.old.items ++ option_text option.now) }
{
    text.extend_from_slice(b"option ")?;
    text.extend_from_slice(option.key.as_slice())?;
    text.push(b' ')?;
    put_value(text, option.value.as_slice())?;
    text.push(b'\n')?;
    Ok(())
}

fn put_value(text: &mut Vec<u8>, value: &[u8]) -> Result<(), AllocError>
    ensures { OnOk result (text.new.items ≡ text.old.items ++ value_text value.now) }
{
    if needs_quotes(value) {
        text.push(b'"')?;
        text.extend_from_slice(value)?;
        text.push(b'"')?;
        return Ok(());
    }
    text.extend_from_slice(value)?;
    Ok(())
}

fn needs_quotes(value: &[u8]) -> bool
    ensures { result ≡ are_quotes_needed value.now }
{
    value.is_empty() || !stand_alone(value)
}

fn stand_alone(value: &[u8]) -> bool
    ensures { result ≡ list_all stands_alone value.now }
{
    value.iter().all(|b| !(is_blank(*b) || *b == b'#'))
}

#[tactic(auto, unfolding(crate::specs::VolfilePrint::subvolumes_text))]
fn put_subvolumes(text: &mut Vec<u8>, names: &[Seq<u8>]) -> Result<(), AllocError>
    ensures { OnOk result (text.new.items ≡ text.old.items ++ subvolumes_text names.now) }
{
    match names {
        [] => Ok(()),
        [_, ..] => {
            text.extend_from_slice(b"subvolumes")?;
            put_names(text, names)?;
            text.push(b'\n')?;
            Ok(())
        }
    }
}

fn put_names(text: &mut Vec<u8>, names: &[Seq<u8>]) -> Result<(), AllocError>
    ensures { OnOk result (text.new.items ≡ text.old.items ++ flat_map word_text names.now) }
{
    for name in names {
        text.push(b' ')?;
        text.extend_from_slice(name.as_slice())?;
    }
    Ok(())
}
