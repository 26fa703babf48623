//! The files that the job was opened with.
ghost use Rattle.std.specs.Prelude.{◌≡◌, ℕ, ◌<◌, ◌^◌, [], length, find, position, IfSome, option_copied, bytes_eq};
ghost use Rattle.std.specs.Option.{option_map_or};
ghost use Rattle.job_calls.specs.Files as listing;
ghost use Rattle.hub_words.specs.Fronts.{has_name};
ghost use Rattle.job_calls.specs.Runs.{Opening, opening_of};

use job_calls::{Call, Entry, Listed};
use mos_text::{SharedBlob, Text, is_image_name, is_source_name};

fn opened_files(call: &Call) -> &[Listed]
    ensures { result.now ≡ option_map_or (λ (o : Opening). o.files) (opening_of call.now) [] }
{
    match call {
        Call::Open { files, .. } => files.as_slice(),
        _ => &[],
    }
}

/// The listed files, in order.
fn files_of(journal: &[Entry]) -> &[Listed]
    ensures { result.now ≡ listing.files_of journal.now }
{
    match journal {
        [] => &[],
        [e, ..] => opened_files(&e.call),
    }
}

fn opened_lanes(call: &Call) -> u32
    ensures { result ≡ option_map_or (λ (o : Opening). o.lanes) (opening_of call.now) 0 }
{
    match call {
        Call::Open { lanes, .. } => *lanes,
        _ => 0,
    }
}

pub(crate) fn lanes_of(journal: &[Entry]) -> u32
    ensures { result ≡ listing.lanes_of journal.now }
{
    match journal {
        [] => 0,
        [e, ..] => opened_lanes(&e.call),
    }
}

fn is_data(name: &Text) -> bool
    ensures { result ≡ listing.is_data name.now }
{
    !is_source_name(name) && !is_image_name(name)
}

/// The listed file of this name, if it is a source, or if it is a data file.
fn listed<'a>(source: bool, name: &Text, files: &'a [Listed]) -> Option<&'a Listed>
    ensures { option_copied result ≡ find (has_name source name.now) files.now }
{
    files.iter().find(|file| {
        file.name.as_bytes() == name.as_bytes()
            && if source {
                is_source_name(&file.name)
            } else {
                is_data(&file.name)
            }
    })
}

/// The code of the listed source of this name, 1 where there is none.
pub(crate) fn code_of(name: &Text, journal: &[Entry]) -> u8
    ensures { result ≡ listing.code_of name.now journal.now }
{
    match listed(true, name, files_of(journal)) {
        None => 1,
        Some(file) => file.code,
    }
}

fn place_in(name: &Text, files: &[Listed]) -> Option<usize>
    ensures place { result ≡ position (λ file. bytes_eq file.name name.now) files.now }
    ensures within { IfSome result (λ place. place < length files.now) }
{
    files
        .iter()
        .position(|file| file.name.as_bytes() == name.as_bytes())
}

/// The place of the listed file of this name.
pub fn file_at(name: &Text, journal: &[Entry]) -> Option<u32>
    requires { length (listing.files_of journal.now) < 2 ^ 31 }
    ensures { result ≡ listing.file_at name.now journal.now }
{
    match place_in(name, files_of(journal)) {
        None => None,
        Some(place) => Some(place as u32),
    }
}

/// The bytes of the listed data file of this name.
pub(crate) fn data_of<'a>(name: &Text, journal: &'a [Entry]) -> Option<&'a SharedBlob>
    ensures { option_copied result ≡ listing.data_of name.now journal.now }
{
    match listed(false, name, files_of(journal)) {
        None => None,
        Some(file) => Some(&file.bytes),
    }
}
