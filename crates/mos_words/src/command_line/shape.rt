//! The shape of one word.
ghost use Rattle.std.specs.Prelude.{◌≡◌, ◌==◌, ◌≤◌, drop, length};
ghost use Rattle.std.specs.List.{position_or_len};
ghost use Rattle.mos_words.specs.CommandLine.{begins_with_dash, is_option, is_equals_sign, has_equals_sign, name_in, value_in, is_misshapen, has_empty_value, takes_next};

pub fn begins_with_dash(word: &[u8]) -> bool
    ensures { result ≡ begins_with_dash word.now }
{
    !word.is_empty() && word[0] == b'-'
}

pub fn is_option(word: &[u8]) -> bool
    ensures { result ≡ is_option word.now }
{
    word.len() > 1 && word[0] == b'-' && word[1] == b'-'
}

fn behind_dashes(word: &[u8]) -> &[u8]
    ensures { result.now ≡ drop 2 word.now }
{
    if word.len() < 2 { &[] } else { &word[2..] }
}

pub fn has_equals_sign(word: &[u8]) -> bool
    ensures { result ≡ has_equals_sign word.now }
{
    behind_dashes(word).iter().any(|byte| *byte == b'=')
}

/// The option's name in an option word.
pub fn name_in(word: &[u8]) -> &[u8]
    ensures { result.now ≡ name_in word.now }
{
    let text = behind_dashes(word);
    &text[..place_of(b'=', text)]
}

/// What stands behind the first `=` of an option word.
pub fn value_in(word: &[u8]) -> &[u8]
    ensures { result.now ≡ value_in word.now }
{
    let text = behind_dashes(word);
    let place = place_of(b'=', text);
    if place < text.len() {
        &text[place + 1..]
    } else {
        &[]
    }
}

#[tactic(auto, unfolding(crate::specs::CommandLine::is_misshapen))]
pub fn is_misshapen(word: &[u8]) -> bool
    ensures { result ≡ is_misshapen word.now }
{
    word.is_empty()
        || (begins_with_dash(word) && !is_option(word))
        || (is_option(word) && word.len() == 2)
}

#[tactic(auto, unfolding(crate::specs::CommandLine::has_empty_value))]
pub fn has_empty_value(word: &[u8]) -> bool
    ensures { result ≡ has_empty_value word.now }
{
    is_option(word) && has_equals_sign(word) && value_in(word).is_empty()
}

#[tactic(auto, unfolding(crate::specs::CommandLine::takes_next))]
pub fn takes_next(word: &[u8]) -> bool
    ensures { result ≡ takes_next word.now }
{
    is_option(word) && !has_equals_sign(word)
}

/// The place of the first such byte, or the length where there is none.
fn place_of(wanted: u8, text: &[u8]) -> usize
    ensures place { result ≡ position_or_len (λ byte. byte == wanted) text.now }
    ensures within { result ≤ length text.now }
{
    text.iter()
        .position(|byte| *byte == wanted)
        .unwrap_or(text.len())
}
