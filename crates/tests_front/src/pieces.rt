//! What `form_of` answers.

ghost use Rattle.std.specs.Prelude.{◌≤◌, length};

use crate::expressions::words_of;
use mos_scan::Word;
use mos_text::let_go;
use mos_tree::{Form, PieceKind, piece_kind_of};
use std::alloc::{AllocError, Global};

fn is_high(form: &Form) -> bool {
    matches!(form, Form::TooHigh(_))
}

/// The kind of a piece, and whether a tree in it is too high.
fn kind_of(alloc: Global, words: &[Word]) -> Option<(bool, PieceKind)> {
    match mos_form::form_of(alloc, words) {
        Ok(form) => {
            let found = (is_high(&form), piece_kind_of(&form));
            let_go(form);
            Some(found)
        }
        Err(_) => None,
    }
}

/// The kind of the piece that a source is, behind `high` where a tree in it is too high.
pub fn kind(alloc: Global, source: &[u8]) -> Result<String, AllocError>
    requires { length source.now ≤ 1048576 }
{
    let Some(words) = words_of(alloc, source) else {
        return String::from_str(alloc, "no words");
    };
    match kind_of(alloc, words.as_slice()) {
        Some((true, kind)) => format!(in alloc; "high {kind:?}"),
        Some((false, kind)) => format!(in alloc; "{kind:?}"),
        None => String::from_str(alloc, "no memory"),
    }
}
