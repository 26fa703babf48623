//! The words of the command line, read as a command.
//!
//! A command is there exactly where the words break no rule of the command line. Each rule is a
//! function of its own over the words behind the command's word; an option is a row of the table.
mod commands;
mod files;
mod options;
mod shape;

ghost use Rattle.std.specs.Prelude.{◌≡◌, false, not, nat_lt, length, IfOk, IsErrOf};
ghost use Rattle.std.specs.List.{list_any, list_all};
ghost use Rattle.mos_words.specs.Fit.{IsWithinLimits};
ghost use Rattle.mos_words.specs.CommandLine.{command_of, run_command, is_misshapen, has_empty_value, is_unknown, is_value, breaks_words, breaks_options, run_options, values, setting_of};
ghost use Rattle.mos_words.specs.declared.command_line.options.OptionName.TheVariants.{Lanes, Budget};
ghost use Rattle.mos_words.specs.declared.command_line.commands.WordFault.TheVariants.{Usage};

pub use commands::{Command, WordFault};
use files::{files, lacks_value, only_source};
use mos_text::Text;
use options::{OptionName, has_wrong_value, is_given_twice, is_unknown, setting};
use shape::{has_empty_value, is_misshapen};
use std::alloc::Global;

/// The options of `run`.
const RUN_OPTIONS: [OptionName; 2] = [OptionName::Lanes, OptionName::Budget];

/// The command that the words ask for. The first word is the program's name and is not looked at;
/// the second is the command, `run`; the others are files and options in any mixture.
#[tactic(auto, unfolding(crate::specs::CommandLine::command_of))]
pub fn command(alloc: Global, words: &[Text]) -> Result<Command, WordFault>
    ensures value { IfOk result (λ command. command_of words.now ≡ Some command) }
    ensures fit { IfOk result IsWithinLimits }
    ensures usage { IsErrOf result Usage → command_of words.now ≡ None }
{
    match words {
        [_program, command, arguments @ ..] if command.as_str() == "run" => {
            run_command(alloc, arguments)
        }
        _ => Err(WordFault::Usage),
    }
}

#[tactic(auto, unfolding(crate::specs::CommandLine::run_command))]
fn run_command(alloc: Global, arguments: &[Text]) -> Result<Command, WordFault>
    ensures value { IfOk result (λ command. run_command arguments.now ≡ Some command) }
    ensures usage { IsErrOf result Usage → run_command arguments.now ≡ None }
{
    if breaks_words(arguments) || breaks_options(&RUN_OPTIONS, arguments) {
        return Err(WordFault::Usage);
    }
    let Some(source) = only_source(files(alloc, arguments)?) else {
        return Err(WordFault::Usage);
    };
    Ok(Command::Run {
        source,
        lanes: lanes(arguments),
        budget: budget(arguments),
    })
}

#[tactic(auto, unfolding(crate::specs::CommandLine::breaks_words))]
fn breaks_words(arguments: &[Text]) -> bool
    ensures { result ≡ breaks_words arguments.now }
{
    has_misshapen(arguments) || has_empty_values(arguments) || lacks_value(arguments)
}

fn has_misshapen(arguments: &[Text]) -> bool
    ensures { result ≡ list_any is_misshapen arguments.now }
{
    arguments.iter().any(|word| is_misshapen(word.as_bytes()))
}

fn has_empty_values(arguments: &[Text]) -> bool
    ensures { result ≡ list_any has_empty_value arguments.now }
{
    arguments
        .iter()
        .any(|word| has_empty_value(word.as_bytes()))
}

#[tactic(auto, unfolding(crate::specs::CommandLine::breaks_options))]
fn breaks_options(options: &[OptionName], arguments: &[Text]) -> bool
    ensures { result ≡ breaks_options options.now arguments.now }
{
    has_unknown(options, arguments)
        || has_one_twice(options, arguments)
        || has_one_wrong(options, arguments)
}

fn has_unknown(options: &[OptionName], arguments: &[Text]) -> bool
    ensures { result ≡ list_any (is_unknown options.now) arguments.now }
{
    arguments
        .iter()
        .any(|word| is_unknown(options, word.as_bytes()))
}

fn has_one_twice(options: &[OptionName], arguments: &[Text]) -> bool
    ensures { result ≡ list_any
        (λ option. nat_lt 1 (length (values option arguments.now))) options.now }
{
    options
        .iter()
        .any(|option| is_given_twice(*option, arguments))
}

fn has_one_wrong(options: &[OptionName], arguments: &[Text]) -> bool
    ensures { result ≡ list_any
        (λ option. not (list_all (is_value option) (values option arguments.now))) options.now }
{
    options
        .iter()
        .any(|option| has_wrong_value(*option, arguments))
}

#[tactic(auto, unfolding(crate::specs::CommandLine::breaks_options))]
fn lanes(arguments: &[Text]) -> u32
    requires { breaks_options run_options arguments.now ≡ false }
    ensures { result ≡ setting_of Lanes (values Lanes arguments.now) }
{
    setting(OptionName::Lanes, arguments)
}

#[tactic(auto, unfolding(crate::specs::CommandLine::breaks_options))]
fn budget(arguments: &[Text]) -> u32
    requires { breaks_options run_options arguments.now ≡ false }
    ensures { result ≡ setting_of Budget (values Budget arguments.now) }
{
    setting(OptionName::Budget, arguments)
}
