//! The kinds of verdict on a source, with their words.
ghost use Rattle.std.specs.Prelude.{◌≡◌, IfOk, option_copied};
ghost use Rattle.mos_text.specs.Kinds.{kind_word, kind_name};

use crate::{NoMemory, Text};
use std::alloc::Global;

/// What a verdict says of a source.
#[derive(Debug, Drop)]
pub enum Kind {
    /// No fault: the source is accepted.
    None,
    /// Bytes that are no UTF-8.
    Utf8,
    /// A character that begins no token, or has no place in one: a wrong escape too.
    Char,
    /// An integer literal above its limit.
    Number,
    /// A literal of a real number.
    Real,
    /// A text literal that is not closed on its line.
    Str,
    /// A comment that is not closed.
    Comment,
    /// A word, option or name of the full language that this one leaves out.
    Out(Text),
    /// A piece that no form takes.
    Syntax,
    /// Trees or blocks nested too deep.
    Deep,
    /// A module other than the one there is, or the one there is while it cannot be used yet.
    Module(Text),
    /// A name of the jobs module without its `uses`.
    Jobs,
    /// A name that is not declared.
    Unknown(Text),
    /// A name that is declared twice.
    Twice(Text),
    /// A `forward` whose routine never comes.
    Forward,
    /// `break` or `next` outside a loop.
    Loop,
    /// `returned` outside a function.
    Return,
    /// An assignment to what is constant, or no constant where one is wanted.
    Const,
    /// A structured type where a scalar one is wanted.
    Flat,
    /// A name with a prefix that is not taken there.
    Prefix(Text),
    /// A wrong number or type of arguments or indexes.
    Args,
    /// Any other place that has no type.
    NoType,
    /// A source that makes too much code.
    Size,
}

impl Kind {
    pub fn copy(&self, alloc: Global) -> Result<Kind, NoMemory>
        ensures { IfOk result (λ k. k ≡ self.now) }
    {
        Ok(match self {
            Kind::None => Kind::None,
            Kind::Utf8 => Kind::Utf8,
            Kind::Char => Kind::Char,
            Kind::Number => Kind::Number,
            Kind::Real => Kind::Real,
            Kind::Str => Kind::Str,
            Kind::Comment => Kind::Comment,
            Kind::Out(name) => Kind::Out(name.copy(alloc)?),
            Kind::Syntax => Kind::Syntax,
            Kind::Deep => Kind::Deep,
            Kind::Module(name) => Kind::Module(name.copy(alloc)?),
            Kind::Jobs => Kind::Jobs,
            Kind::Unknown(name) => Kind::Unknown(name.copy(alloc)?),
            Kind::Twice(name) => Kind::Twice(name.copy(alloc)?),
            Kind::Forward => Kind::Forward,
            Kind::Loop => Kind::Loop,
            Kind::Return => Kind::Return,
            Kind::Const => Kind::Const,
            Kind::Flat => Kind::Flat,
            Kind::Prefix(name) => Kind::Prefix(name.copy(alloc)?),
            Kind::Args => Kind::Args,
            Kind::NoType => Kind::NoType,
            Kind::Size => Kind::Size,
        })
    }

    /// The word of an error line, without the name that follows it.
    pub fn word(&self) -> &'static str
        ensures { result.now ≡ kind_word self.now }
    {
        match self {
            Kind::None => "NONE",
            Kind::Utf8 => "UTF8",
            Kind::Char => "CHAR",
            Kind::Number => "NUMBER",
            Kind::Real => "REAL",
            Kind::Str => "STRING",
            Kind::Comment => "COMMENT",
            Kind::Out(_) => "OUT",
            Kind::Syntax => "SYNTAX",
            Kind::Deep => "DEEP",
            Kind::Module(_) => "MODULE",
            Kind::Jobs => "JOBS",
            Kind::Unknown(_) => "UNKNOWN",
            Kind::Twice(_) => "TWICE",
            Kind::Forward => "FORWARD",
            Kind::Loop => "LOOP",
            Kind::Return => "RETURN",
            Kind::Const => "CONST",
            Kind::Flat => "FLAT",
            Kind::Prefix(_) => "PREFIX",
            Kind::Args => "ARGS",
            Kind::NoType => "TYPE",
            Kind::Size => "SIZE",
        }
    }

    /// The name or word that the kind speaks of, where it has one.
    pub fn name(&self) -> Option<&Text>
        ensures { option_copied result ≡ kind_name self.now }
    {
        match self {
            Kind::Out(name) | Kind::Module(name) => Some(name),
            Kind::Unknown(name) | Kind::Twice(name) | Kind::Prefix(name) => Some(name),
            Kind::None | Kind::Utf8 | Kind::Char | Kind::Number | Kind::Real => None,
            Kind::Str | Kind::Comment | Kind::Syntax | Kind::Deep | Kind::Jobs => None,
            Kind::Forward | Kind::Loop | Kind::Return | Kind::Const | Kind::Flat => None,
            Kind::Args | Kind::NoType | Kind::Size => None,
        }
    }
}
