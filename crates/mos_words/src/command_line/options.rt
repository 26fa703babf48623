//! The options that take a number, and the values that words give them.
ghost use Rattle.std.specs.Prelude.{◌≡◌, true, false, nat_lt, not, length, slice_index_or, [], MatchOption};
ghost use Rattle.std.specs.List.{list_all, list_any};
ghost use Rattle.mos_text.specs.FileName.{is_digit};
ghost use Rattle.mos_words.specs.CommandLine.{row_of, is_named, is_unknown, value_at, values, is_number, number_of, is_value, setting_of};

use crate::command_line::shape::{has_equals_sign, is_option, name_in, value_in};
use mos_text::Text;

/// An option that takes a number.
#[derive(Clone, Copy, Debug, PartialEq, Drop)]
pub enum OptionName {
    /// `--lanes`: the number of lanes.
    Lanes,
    /// `--budget`: the ticks that a run may take.
    Budget,
}

/// The row of an option in the table.
#[derive(Clone, Copy)]
struct TableRow {
    name: &'static [u8],
    least: u32,
    most: u32,
    usual: u32,
}

fn row(option: OptionName) -> TableRow
    ensures name { result.name.now ≡ (row_of option).name }
    ensures least { result.least ≡ (row_of option).least }
    ensures most { result.most ≡ (row_of option).most }
    ensures usual { result.usual ≡ (row_of option).usual }
{
    match option {
        OptionName::Lanes => TableRow {
            name: b"lanes",
            least: 1,
            most: 64,
            usual: 16,
        },
        OptionName::Budget => TableRow {
            name: b"budget",
            least: 1,
            most: 1_000_000_000,
            usual: 10_000_000,
        },
    }
}

#[tactic(auto, unfolding(crate::specs::CommandLine::is_named))]
fn is_named(option: OptionName, word: &[u8]) -> bool
    ensures { result ≡ is_named option word.now }
{
    is_option(word) && name_in(word) == row(option).name
}

#[tactic(auto, unfolding(crate::specs::CommandLine::is_unknown))]
pub fn is_unknown(options: &[OptionName], word: &[u8]) -> bool
    ensures { result ≡ is_unknown options.now word.now }
{
    is_option(word) && !is_known(options, word)
}

fn is_known(options: &[OptionName], word: &[u8]) -> bool
    ensures { result ≡ list_any (λ option. is_named option word.now) options.now }
{
    options.iter().any(|option| is_named(*option, word))
}

/// The bytes of the first of these words, none where there is no word.
pub fn first_of(words: &[Text]) -> &[u8]
    ensures { result.now ≡ slice_index_or words.now 0 [] }
{
    match words {
        [first, ..] => first.as_bytes(),
        [] => &[],
    }
}

#[tactic(auto, unfolding(crate::specs::CommandLine::value_at))]
fn value_at<'a>(word: &'a [u8], words: &'a [Text]) -> &'a [u8]
    ensures { result.now ≡ value_at word.now words.now }
{
    if has_equals_sign(word) {
        value_in(word)
    } else {
        first_of(words)
    }
}

/// Whether the words give the option more than once.
pub fn is_given_twice(option: OptionName, arguments: &[Text]) -> bool
    ensures { result ≡ nat_lt 1 (length (values option arguments.now)) }
{
    let mut is_given = false;
    for word in arguments {
        if is_named(option, word.as_bytes()) {
            if is_given {
                return true;
            }
            is_given = true;
        }
    }
    false
}

/// Whether the words give the option a value outside its table.
pub fn has_wrong_value(option: OptionName, arguments: &[Text]) -> bool
    ensures { result ≡ not (list_all (is_value option) (values option arguments.now)) }
{
    for (place, word) in arguments.iter().enumerate() {
        let bytes = word.as_bytes();
        if is_named(option, bytes) && !is_value(option, value_at(bytes, &arguments[place + 1..])) {
            return true;
        }
    }
    false
}

#[tactic(auto, unfolding(crate::specs::CommandLine::is_value))]
fn is_value(option: OptionName, word: &[u8]) -> bool
    ensures { result ≡ is_value option word.now }
{
    let row = row(option);
    match number(word) {
        Some(number) => row.least as u64 <= number && number <= row.most as u64,
        None => false,
    }
}

/// The number that 1 to 10 decimal digits write; leading zeros are fine.
fn number(word: &[u8]) -> Option<u64>
    ensures { MatchOption result (is_number word.now ≡ false)
        (λ n. (is_number word.now ≡ true) × (n ≡ number_of word.now)) }
{
    if is_number(word) {
        Some(number_of(word))
    } else {
        None
    }
}

#[tactic(auto, unfolding(crate::specs::CommandLine::is_number))]
fn is_number(word: &[u8]) -> bool
    ensures { result ≡ is_number word.now }
{
    !word.is_empty() && word.len() <= 10 && has_digits_only(word)
}

fn has_digits_only(word: &[u8]) -> bool
    ensures { result ≡ list_all is_digit word.now }
{
    word.iter().all(|byte| byte.is_ascii_digit())
}

#[tactic(auto, unfolding(crate::specs::CommandLine::number_of))]
fn number_of(digits: &[u8]) -> u64
    requires { is_number digits.now ≡ true }
    ensures { result ≡ number_of digits.now }
{
    let mut number = 0;
    for digit in digits {
        number = number * 10 + (*digit - b'0') as u64;
    }
    number
}

/// The value that the words give the option, or its usual one.
#[tactic(auto, unfolding(crate::specs::CommandLine::setting_of))]
pub fn setting(option: OptionName, arguments: &[Text]) -> u32
    requires { list_all (is_value option) (values option arguments.now) ≡ true }
    ensures { result ≡ setting_of option (values option arguments.now) }
{
    for (place, word) in arguments.iter().enumerate() {
        let bytes = word.as_bytes();
        if is_named(option, bytes) {
            return number_within(option, value_at(bytes, &arguments[place + 1..]));
        }
    }
    row(option).usual
}

#[tactic(auto, unfolding(crate::specs::CommandLine::is_value))]
fn number_within(option: OptionName, word: &[u8]) -> u32
    requires { is_value option word.now ≡ true }
    ensures { result ≡ number_of word.now }
{
    let _most = row(option).most;
    match number(word) {
        Some(number) => number as u32,
        None => unreachable!(),
    }
}
