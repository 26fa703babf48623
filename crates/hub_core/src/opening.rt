//! What a job may be opened with.
ghost use Rattle.std.specs.Prelude.{◌≡◌, ℕ, List, IsTrue, bytes_eq};
ghost use Rattle.std.specs.List.{list_all, list_any};
ghost use Rattle.mos_text.specs.FileName.{is_file_name};
ghost use Rattle.job_calls.specs.Legal.{CanOpen, IsMaster, HaveDistinctNames};
ghost use Rattle.hub_core.specs.Hubs.{opened_with};

use job_calls::Listed;
use mos_text::{is_file_name, is_image_name, is_source_name};

/// The first of the files can be the master.
fn is_master(files: &[Listed]) -> bool
    ensures yes { IsTrue result → IsMaster files.now }
    ensures no { IsMaster files.now → IsTrue result }
{
    match files {
        [] => false,
        [file, ..] => (is_source_name(&file.name) || is_image_name(&file.name)) && file.code == 0,
    }
}

fn have_file_names(files: &[Listed]) -> bool
    ensures { result ≡ list_all (λ file. is_file_name file.name) files.now }
{
    files.iter().all(|file| is_file_name(&file.name))
}

fn is_among(name: &Listed, files: &[Listed]) -> bool
    ensures { result ≡ list_any (λ file. bytes_eq file.name name.now.name) files.now }
{
    files
        .iter()
        .any(|file| file.name.as_bytes() == name.name.as_bytes())
}

fn are_distinct(files: &[Listed]) -> bool
    ensures yes { IsTrue result → HaveDistinctNames files.now }
    ensures no { HaveDistinctNames files.now → IsTrue result }
{
    match files {
        [] => true,
        [file, rest @ ..] => !is_among(file, rest) && are_distinct(rest),
    }
}

/// Whether a job may be opened so, with any parameter text: 1 to 64 lanes, a budget of 1 to 1,000,000,000
/// ticks, and 1 to 128 files whose names are distinct file names, the first of them an accepted source or
/// an image.
pub fn can_open(lanes: u32, budget: u32, files: &[Listed]) -> bool
    ensures yes { IsTrue result → (params : List ℕ) → CanOpen (opened_with lanes budget params files.now) }
    ensures no { (params : List ℕ) → CanOpen (opened_with lanes budget params files.now) → IsTrue result }
{
    let numbers = lanes >= 1 && lanes <= 64 && budget >= 1 && budget <= 1_000_000_000;
    numbers
        && files.len() <= 128
        && is_master(files)
        && have_file_names(files)
        && are_distinct(files)
}
