//! Texts of entries, read at the places that the indexes give.
ghost use Rattle.std.specs.Prelude.{◌≡◌, ◌<◌, ◌^◌, ℕ, List, None, length, option_map, option_copied, option_and_then, slice_get};
ghost use Rattle.job_calls.specs.Runs as runs;
ghost use Rattle.job_calls.specs.Models as models;
ghost use Rattle.job_calls.specs.Files as files;
ghost use Rattle.job_calls.specs.Files.{files_of};

use hub_words::{compiled_to, file_at, params_opened, params_started};
use job_calls::Entry;
use mos_text::{Place, Text};

/// The parameter text that the job was opened with.
pub(crate) fn first_params(entries: &[Entry]) -> Option<&Text>
    ensures { option_copied result ≡ runs.params_of 0 entries.now }
{
    match entries {
        [] => None,
        [e, ..] => params_opened(&e.call),
    }
}

/// The parameter text that the run is started with by the entry at this place.
pub(crate) fn params_at(entries: &[Entry], run: u32, place: Option<Place>) -> Option<&Text>
    ensures { option_copied result ≡ option_and_then (λ k. option_and_then
        (λ e. option_map (λ start. start.params) (runs.start_of_run run e))
        (slice_get entries.now k)) (option_map (λ p. p.0) place) }
{
    match place {
        None => None,
        Some(place) => match entries.get(place.0 as usize) {
            None => None,
            Some(entry) => params_started(run, entry),
        },
    }
}

/// The source that was compiled to the file by the entry at this place.
fn compiled_at<'a>(entries: &'a [Entry], file: &Text, place: Option<Place>) -> Option<&'a Text>
    ensures { option_copied result ≡ option_and_then (λ k. option_and_then
        (λ e. models.compiled_to file.now e.call e.reply)
        (slice_get entries.now k)) (option_map (λ p. p.0) place) }
{
    match place {
        None => None,
        Some(place) => match entries.get(place.0 as usize) {
            None => None,
            Some(entry) => compiled_to(file, &entry.call, &entry.reply),
        },
    }
}

/// The place, in the list of files, of that source.
pub(crate) fn source_at(entries: &[Entry], file: &Text, place: Option<Place>) -> Option<u32>
    requires { length (files_of entries.now) < 2 ^ 31 }
    ensures { result ≡ option_and_then (λ src. files.file_at src entries.now)
        (option_and_then (λ k. option_and_then (λ e. models.compiled_to file.now e.call e.reply)
        (slice_get entries.now k)) (option_map (λ p. p.0) place)) }
{
    match compiled_at(entries, file, place) {
        None => None,
        Some(src) => file_at(src, entries),
    }
}
