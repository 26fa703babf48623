//! Names of files: which texts are such, and what a name says of its file.
ghost use Rattle.std.specs.Prelude.{◌≡◌, ◌==◌};
ghost use Rattle.std.specs.List.{list_all, slice_split};
ghost use Rattle.mos_text.specs.FileName as spec;

use crate::Text;

/// Whether the text may name a file: 1 to 255 bytes, one or more parts joined by `/`, each part one
/// or more letters, digits, `_`, `-`, `.`, not beginning with `.` or `-`. So a name leads to no
/// folder above, and looks like no option of a command.
#[tactic(auto, unfolding(crate::specs::FileName::is_file_name))]
pub fn is_file_name(name: &Text) -> bool
    ensures { result ≡ spec.is_file_name name.now }
{
    let bytes = name.as_bytes();
    bytes.len() <= 255 && has_parts(bytes)
}

fn has_parts(name: &[u8]) -> bool
    ensures { result ≡ list_all spec.is_file_name_part (slice_split (λ byte. byte == 47) name.now) }
{
    name.split(|byte| *byte == b'/').all(|part| is_part(part))
}

fn is_part(part: &[u8]) -> bool
    ensures { result ≡ spec.is_file_name_part part.now }
{
    !part.is_empty() && part[0] != b'.' && part[0] != b'-' && has_part_bytes(part)
}

fn has_part_bytes(part: &[u8]) -> bool
    ensures { result ≡ list_all spec.is_file_name_byte part.now }
{
    part.iter().all(|byte| is_part_byte(*byte))
}

fn is_part_byte(byte: u8) -> bool
    ensures { result ≡ spec.is_file_name_byte byte }
{
    matches!(byte, b'A'..=b'Z' | b'a'..=b'z' | b'0'..=b'9' | b'_' | b'-' | b'.')
}

/// Whether the name is that of a source: it ends in `.mos`.
pub fn is_source_name(name: &Text) -> bool
    ensures { result ≡ spec.is_source_name name.now }
{
    has_ending(name.as_bytes(), b".mos")
}

/// Whether the name is that of an image: it ends in `.bim`.
pub fn is_image_name(name: &Text) -> bool
    ensures { result ≡ spec.is_image_name name.now }
{
    has_ending(name.as_bytes(), b".bim")
}

fn has_ending(name: &[u8], ending: &[u8]) -> bool
    ensures { result ≡ spec.has_ending ending.now name.now }
{
    &name[name.len().saturating_sub(ending.len())..] == ending
}
