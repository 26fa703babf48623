//! Symbols of one byte and of two.
ghost use Rattle.std.specs.Prelude.{◌≡◌};
ghost use Rattle.mos_scan.specs.Tokens as spec;

use crate::TokenKind;
use crate::reserved_word::look_up;
use crate::vocabulary::SYMBOLS;

/// The symbol that the byte is.
#[tactic(auto, unfolding(crate::specs::Tokens::one_byte))]
pub(crate) fn one_byte(byte: u8) -> Option<TokenKind>
    ensures { result ≡ spec.one_byte byte }
{
    look_up(&SYMBOLS, &[byte])
}

/// The symbol that the two bytes are.
#[tactic(auto, unfolding(crate::specs::Tokens::two_bytes))]
pub(crate) fn two_bytes(first: u8, second: u8) -> Option<TokenKind>
    ensures { result ≡ spec.two_bytes first second }
{
    look_up(&SYMBOLS, &[first, second])
}
