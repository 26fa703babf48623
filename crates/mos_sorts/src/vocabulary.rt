//! The names of the library and of the module of jobs, with what each takes and gives, and those that are left out.
//! These tables are the definition: what is said of names and calls cites them.
ghost use Rattle.std.specs.Prelude.{◌≡◌, map};
ghost use Rattle.mos_sorts.specs.Vocabulary as spec;
ghost use Rattle.std.specs.List.{list_any};
ghost use Rattle.std.specs.Str.{bytes_eq};

use crate::Function::*;
use crate::Takes::*;
use crate::{Callable, Function, Gives, Takes, Undeclared, Wanted};
use mos_tree::Conversion;

/// The functions and procedures that need no module. `string` and `integer` are reserved words, which no name is.
const FUNCTIONS: [(&[u8], Function, Takes, Gives); 21] = [
    (b"write", Write, Values, Gives::Nothing),
    (b"writeln", Writeln, Values, Gives::Nothing),
    (b"exit", Exit, One(Wanted::Integer), Gives::Nothing),
    (b"abs", Abs, One(Wanted::Integer), Gives::Integer),
    (b"minlist", MinList, Integers, Gives::Integer),
    (b"maxlist", MaxList, Integers, Gives::Integer),
    (b"isodd", IsOdd, One(Wanted::Integer), Gives::Boolean),
    (b"getsize", GetSize, One(Wanted::Collection), Gives::Integer),
    (b"getfirst", GetFirst, One(Wanted::Sequence), Gives::Item),
    (b"getlast", GetLast, One(Wanted::Sequence), Gives::Item),
    (
        b"gethead",
        GetHead,
        Two(Wanted::List, Wanted::Integer),
        Gives::List,
    ),
    (
        b"gettail",
        GetTail,
        Two(Wanted::List, Wanted::Integer),
        Gives::List,
    ),
    (b"getreverse", GetReverse, One(Wanted::List), Gives::List),
    (b"reverse", Reverse, One(Wanted::List), Gives::Nothing),
    (b"findfirst", FindFirst, ListAndMember, Gives::Integer),
    (b"findlast", FindLast, ListAndMember, Gives::Integer),
    (
        b"substr",
        Substr,
        Three(Wanted::Text, Wanted::Integer, Wanted::Integer),
        Gives::Text,
    ),
    (b"exists", Exists, One(Wanted::Cell), Gives::Boolean),
    (b"create", Create, One(Wanted::Cell), Gives::Nothing),
    (b"delcell", DelCell, One(Wanted::Cell), Gives::Nothing),
    (b"finalize", Finalize, One(Wanted::Set), Gives::Nothing),
];

/// Those of the module of jobs.
const JOB_FUNCTIONS: [(&[u8], Function, Takes, Gives); 17] = [
    (b"getclass", GetClass, One(Wanted::Event), Gives::Integer),
    (b"getvalue", GetValue, One(Wanted::Event), Gives::Integer),
    (b"getid", GetId, One(Wanted::Model), Gives::Integer),
    (b"EVENT_END", EventEnd, Zero, Gives::Integer),
    (b"compile", Compile, SourceFile, Gives::Integer),
    (b"load", Load, ModelAndImage, Gives::Nothing),
    (b"run", Run, ModelToRun, Gives::Nothing),
    (b"wait", Wait, Zero, Gives::Nothing),
    (b"getnextevent", GetNextEvent, Zero, Gives::Event),
    (b"peeknextevent", PeekNextEvent, Zero, Gives::Event),
    (b"dropnextevent", DropNextEvent, Zero, Gives::Nothing),
    (b"isqueueempty", IsQueueEmpty, Zero, Gives::Boolean),
    (b"send", Send, EventToSend, Gives::Nothing),
    (b"getstatus", GetStatus, One(Wanted::Model), Gives::Integer),
    (
        b"getexitcode",
        GetExitCode,
        One(Wanted::Model),
        Gives::Integer,
    ),
    (b"stop", Stop, One(Wanted::Model), Gives::Nothing),
    (b"unload", Unload, One(Wanted::Model), Gives::Nothing),
];

/// The routines of other modules that are left out.
const LEFT_OUT: [&[u8]; 10] = [
    b"fopen",
    b"fclose",
    b"fselect",
    b"readln",
    b"read",
    b"detach",
    b"reset",
    b"setdefstream",
    b"connect",
    b"disconnect",
];

fn same_bytes(a: &[u8], b: &[u8]) -> bool
    ensures { result ≡ bytes_eq a.now b.now }
{
    a == b
}

/// The function of this name in a table.
fn look_up(table: &[(&[u8], Function, Takes, Gives)], name: &[u8]) -> Option<Callable>
    ensures { result ≡ spec.look_up name.now (map (λ k. (k.0.now, k.1, k.2, k.3)) table.now) }
{
    for row in table {
        if same_bytes(name, row.0) {
            return Some(Callable {
                function: row.1,
                takes: row.2,
                gives: row.3,
            });
        }
    }
    None
}

fn stands_in(words: &[&[u8]], name: &[u8]) -> bool
    ensures { result ≡ list_any (λ k. bytes_eq name.now k.now) words.now }
{
    words.iter().any(|word| same_bytes(name, word))
}

fn of_jobs(jobs: bool, found: Undeclared) -> Undeclared
    ensures { result ≡ spec.of_jobs jobs found }
{
    if jobs { found } else { Undeclared::Jobs }
}

/// What a name stands for that is no function.
fn no_function(jobs: bool, name: &[u8]) -> Undeclared
    ensures { result ≡ spec.no_function jobs name.now }
{
    if stands_in(&LEFT_OUT, name) {
        Undeclared::LeftOut
    } else if same_bytes(name, b"Model") {
        of_jobs(jobs, Undeclared::Model)
    } else if same_bytes(name, b"Event") {
        of_jobs(jobs, Undeclared::Event)
    } else {
        Undeclared::Nothing
    }
}

/// What a name stands for that is no function which needs no module.
fn job_function(jobs: bool, name: &[u8]) -> Undeclared
    ensures { result ≡ spec.job_function jobs name.now (spec.look_up name.now spec.job_functions) }
{
    match look_up(&JOB_FUNCTIONS, name) {
        Some(callable) => of_jobs(jobs, Undeclared::Function(callable)),
        None => no_function(jobs, name),
    }
}

/// What a name stands for where it is not declared, by whether the module of jobs is used.
pub fn undeclared(jobs: bool, name: &[u8]) -> Undeclared
    ensures { result ≡ spec.undeclared_meaning jobs name.now }
{
    match look_up(&FUNCTIONS, name) {
        Some(callable) => Undeclared::Function(callable),
        None => job_function(jobs, name),
    }
}

/// `integer(a)` or `string(a)` as functions of the library.
pub fn conversion(to: Conversion) -> Callable
    ensures { result ≡ spec.conversion to }
{
    match to {
        Conversion::Integer => Callable {
            function: Function::IntegerOf,
            takes: One(Wanted::Member),
            gives: Gives::Integer,
        },
        Conversion::Text => Callable {
            function: Function::TextOf,
            takes: One(Wanted::Value),
            gives: Gives::Text,
        },
    }
}
