//! Calls by their words.
use crate::ends::end_of;
use job_calls::{Call, Way};
use mos_text::{Blob, NoMemory, SharedBlob, Text, let_go};
use std::alloc::Global;

/// The number; 0 where the word is none.
pub fn number(word: &str) -> u32 {
    word.parse().unwrap_or(0)
}

/// The same of a byte.
pub fn byte(word: &str) -> u8 {
    word.parse().unwrap_or(0)
}

pub fn signed(word: &str) -> i32 {
    word.parse().unwrap_or(0)
}

/// A run's number, or none for '-'.
pub fn some_number(word: &str) -> Option<u32> {
    word.parse().ok()
}

pub fn text(alloc: Global, word: &str) -> Result<Text, NoMemory> {
    Ok(Text::from_string(String::from_str(alloc, word)?))
}

fn bytes(alloc: Global, many: usize, byte: u8) -> Result<Blob, NoMemory> {
    Ok(Blob::from_vec(vec![in alloc; byte; many]?))
}

fn compile_call(alloc: Global, src: &str, dst: &str) -> Result<Call, NoMemory> {
    let (src, dst) = (text(alloc, src)?, text(alloc, dst)?);
    Ok(Call::Compile { src, dst })
}

fn run_call(alloc: Global, model: &str, params: &str) -> Result<Call, NoMemory> {
    let params = text(alloc, params)?;
    Ok(Call::Run {
        model: number(model),
        params,
    })
}

fn write_call(alloc: Global, name: &str, many: usize, byte: u8) -> Result<Call, NoMemory> {
    let name = text(alloc, name)?;
    let bytes = SharedBlob::new(alloc, bytes(alloc, many, byte)?)?;
    Ok(Call::Write { name, bytes })
}

fn put_call(alloc: Global, name: &str, many: usize, byte: u8) -> Result<Call, NoMemory> {
    let name = text(alloc, name)?;
    let bytes = bytes(alloc, many, byte)?;
    Ok(Call::PipePut { name, bytes })
}

/// A call of a name alone; a word that says none is a lane's quit.
fn name_call(word: &str, name: Text) -> Call {
    match word {
        "load" => Call::Load { file: name },
        "read" => Call::Read { name },
        "take" => Call::PipeTake { name },
        "close" => Call::PipeClose { name },
        "pipe_read" => open_call(name, Way::Reads),
        "pipe_write" => open_call(name, Way::Writes),
        _ => {
            let_go(name);
            Call::Quit
        }
    }
}

fn open_call(name: Text, way: Way) -> Call {
    Call::PipeOpen { name, way }
}

/// Calls that name a file, a block or a pipe; `fill` writes so many bytes of 0.
fn text_call(
    alloc: Global,
    word: &str,
    first: &str,
    second: &str,
    third: &str,
) -> Result<Call, NoMemory> {
    match word {
        "compile" => compile_call(alloc, first, second),
        "run" => run_call(alloc, first, second),
        "write" => write_call(alloc, first, 1, byte(second)),
        "fill" => write_call(alloc, first, number(second) as usize, 0),
        "put" => put_call(alloc, first, number(second) as usize, byte(third)),
        _ => Ok(name_call(word, text(alloc, first)?)),
    }
}

/// Calls that name a run or a model by its number alone, and those that name nothing.
fn number_call(word: &str, first: &str, second: &str, third: &str) -> Option<Call> {
    let model = number(first);
    match word {
        "status" => Some(Call::Status { model }),
        "exit_code" => Some(Call::ExitCode { model }),
        "stop" => Some(Call::Stop { model }),
        "unload" => Some(Call::Unload { model }),
        "send" => Some(Call::Send {
            to: some_number(first),
            class: signed(second),
            value: signed(third),
        }),
        "finish" => Some(Call::Finish(end_of(first, signed(second)))),
        _ => plain_call(word),
    }
}

fn plain_call(word: &str) -> Option<Call> {
    match word {
        "claim" => Some(Call::Claim),
        "quit" => Some(Call::Quit),
        "wait" => Some(Call::Wait),
        "next" => Some(Call::Next),
        "peek" => Some(Call::Peek),
        "drop" => Some(Call::Drop),
        "is_empty" => Some(Call::IsEmpty),
        _ => None,
    }
}

/// The word at a place; none are empty.
fn word_at<'a>(words: &[&'a str], place: usize) -> &'a str {
    words.get(place).copied().unwrap_or("")
}

/// The call that the words say.
pub fn call_of(alloc: Global, words: &[&str]) -> Result<Call, NoMemory> {
    let (word, first) = (word_at(words, 0), word_at(words, 1));
    let (second, third) = (word_at(words, 2), word_at(words, 3));
    match number_call(word, first, second, third) {
        Some(call) => Ok(call),
        None => text_call(alloc, word, first, second, third),
    }
}
