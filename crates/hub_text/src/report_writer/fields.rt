//! Numbers, in_quotes texts and bytes.
ghost use Rattle.std.specs.Prelude.{◌≡◌, ◌<◌, ◌++◌, flat_map, OnOk};
ghost use Rattle.hub_text.specs.Quoting.{escape, hex_digit, hex_pair, hex_text, in_quotes, with_number, with_quotes};

use itoa::{Buffer, Integer};
use std::alloc::AllocError;

/// A number in decimal.
pub fn put_number<I: Integer>(out: &mut Vec<u8>, number: I) -> Result<(), AllocError>
    ensures { OnOk result (out.new.items ≡ out.old.items ++ I.text number) }
{
    let mut buffer = Buffer::new();
    out.extend_from_slice(buffer.format(number).as_bytes())
}

/// A word, a space and a number.
#[tactic(auto, unfolding(crate::specs::Quoting::with_number))]
pub fn put_with_number(out: &mut Vec<u8>, word: &[u8], number: u32) -> Result<(), AllocError>
    ensures { OnOk result (out.new.items ≡ out.old.items ++ with_number word.now number) }
{
    out.extend_from_slice(word)?;
    out.push(b' ')?;
    put_number(out, number)
}

/// A word, a space and a text in quotes.
#[tactic(auto, unfolding(crate::specs::Quoting::with_quotes))]
pub fn put_with_quoted(out: &mut Vec<u8>, word: &[u8], text: &[u8]) -> Result<(), AllocError>
    ensures { OnOk result (out.new.items ≡ out.old.items ++ with_quotes word.now text.now) }
{
    out.extend_from_slice(word)?;
    out.push(b' ')?;
    put_quoted(out, text)
}

/// A text in quotes.
#[tactic(auto, unfolding(crate::specs::Quoting::in_quotes))]
pub fn put_quoted(out: &mut Vec<u8>, text: &[u8]) -> Result<(), AllocError>
    ensures { OnOk result (out.new.items ≡ out.old.items ++ in_quotes text.now) }
{
    out.push(b'"')?;
    put_escaped(out, text)?;
    Ok(out.push(b'"')?)
}

fn put_escaped(out: &mut Vec<u8>, text: &[u8]) -> Result<(), AllocError>
    ensures { OnOk result (out.new.items ≡ out.old.items ++ flat_map escape text.now) }
{
    for byte in text {
        put_escaped_byte(out, *byte)?;
    }
    Ok(())
}

fn put_escaped_byte(out: &mut Vec<u8>, byte: u8) -> Result<(), AllocError>
    ensures { OnOk result (out.new.items ≡ out.old.items ++ escape byte) }
{
    match byte {
        b'\n' => out.extend_from_slice(b"\\n"),
        b'\t' => out.extend_from_slice(b"\\t"),
        b'\\' => out.extend_from_slice(b"\\\\"),
        b'"' => out.extend_from_slice(b"\\\""),
        _ => Ok(out.push(byte)?),
    }
}

/// Bytes: an x, and two digits of base 16 for each.
#[tactic(auto, unfolding(crate::specs::Quoting::hex_text))]
pub fn put_hex(out: &mut Vec<u8>, bytes: &[u8]) -> Result<(), AllocError>
    ensures { OnOk result (out.new.items ≡ out.old.items ++ hex_text bytes.now) }
{
    out.push(b'x')?;
    put_hex_pairs(out, bytes)
}

fn put_hex_pairs(out: &mut Vec<u8>, bytes: &[u8]) -> Result<(), AllocError>
    ensures { OnOk result (out.new.items ≡ out.old.items ++ flat_map hex_pair bytes.now) }
{
    for byte in bytes {
        put_hex_pair(out, *byte)?;
    }
    Ok(())
}

fn put_hex_pair(out: &mut Vec<u8>, byte: u8) -> Result<(), AllocError>
    ensures { OnOk result (out.new.items ≡ out.old.items ++ hex_pair byte) }
{
    out.push(hex_digit(byte / 16))?;
    Ok(out.push(hex_digit(byte % 16))?)
}

/// The digit of a number below 16.
fn hex_digit(number: u8) -> u8
    requires { number < 16 }
    ensures { result ≡ hex_digit number }
{
    if number < 10 {
        b'0' + number
    } else {
        b'a' - 10 + number
    }
}
