//! The file words of a command.
ghost use Rattle.std.specs.Prelude.{◌≡◌, true, false, [], slice_index_or, IfOk, MatchOption};
ghost use Rattle.std.specs.List.{list_all};
ghost use Rattle.mos_text.specs.FileName.{is_file_name, is_source_name};
ghost use Rattle.mos_words.specs.CommandLine.{files, lacks_value, breaks_files};

use crate::command_line::options::first_of;
use crate::command_line::shape::{begins_with_dash, takes_next};
use mos_text::{NoMemory, Text, is_file_name, is_source_name};
use sqlite_items::Items;
use std::alloc::Global;

/// The file words, copied, in order.
pub fn files(alloc: Global, arguments: &[Text]) -> Result<Items<Text>, NoMemory>
    ensures { IfOk result (λ named. named ≡ files arguments.now) }
{
    let mut named = Items::new(alloc);
    let mut before: &[u8] = &[];
    for word in arguments {
        let bytes = word.as_bytes();
        if !takes_next(before) && !begins_with_dash(bytes) {
            named.push(word.copy(alloc)?)?;
        }
        before = bytes;
    }
    Ok(named)
}

/// Whether an option without `=` is the last word or stands before a word that begins with a dash.
pub fn lacks_value(arguments: &[Text]) -> bool
    ensures { result ≡ lacks_value arguments.now }
{
    for (place, word) in arguments.iter().enumerate() {
        let behind = &arguments[place + 1..];
        if takes_next(word.as_bytes())
            && (behind.is_empty() || begins_with_dash(first_of(behind)))
        {
            return true;
        }
    }
    false
}

/// The one file, a source, where the file words break no rule.
pub fn only_source(named: Items<Text>) -> Option<Text>
    ensures { MatchOption result (breaks_files named ≡ true)
        (λ source. (breaks_files named ≡ false) × (source ≡ slice_index_or named 0 [])) }
{
    if breaks_files(named.as_slice()) {
        None
    } else {
        Some(first_of_one(named))
    }
}

#[tactic(auto, unfolding(crate::specs::CommandLine::breaks_files))]
fn breaks_files(named: &[Text]) -> bool
    ensures { result ≡ breaks_files named.now }
{
    !are_file_names(named) || named.len() != 1 || !are_source_names(named)
}

#[tactic(auto, unfolding(crate::specs::CommandLine::breaks_files))]
fn first_of_one(mut named: Items<Text>) -> Text
    requires { breaks_files named ≡ false }
    ensures { result ≡ slice_index_or named 0 [] }
{
    named.remove(0)
}

fn are_file_names(named: &[Text]) -> bool
    ensures { result ≡ list_all is_file_name named.now }
{
    named.iter().all(|name| is_file_name(name))
}

fn are_source_names(named: &[Text]) -> bool
    ensures { result ≡ list_all is_source_name named.now }
{
    named.iter().all(|name| is_source_name(name))
}
