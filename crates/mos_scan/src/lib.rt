//! Tokens and pieces: how the bytes of a source are cut.
//!
//! A source is cut into tokens, blanks and comments; tokens are cut into pieces, which are what the
//! grammar is about: a statement, a heading, an item, a word that opens or closes a block.
#![tactic(auto)]

mod character;
mod context;
mod fault;
mod grammar_word;
mod laws;
mod lexeme;
mod number;
mod piece;
mod reserved_word;
mod scanner;
mod symbol;
mod token;
mod token_class;
mod vocabulary;

pub use fault::LexFault;
pub use grammar_word::{Word, piece_words, words};
pub use laws::{source_is_scanned_once, tokens_are_cut_once};
pub use piece::{Piece, pieces};
pub use scanner::{line_behind, scan};
pub use token::{Token, TokenKind};
