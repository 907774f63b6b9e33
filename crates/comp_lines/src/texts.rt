//! Numbers, bytes and names at the end of a text.

ghost use Rattle.std.specs.Prelude.{◌≡◌, ◌<◌, ◌++◌, ◌∷◌, [], OnOk, string_bytes};
ghost use Rattle.std.specs.List.{flat_map};
ghost use Rattle.std.specs.Char.{encode_utf8};
ghost use Rattle.std.specs.Fmt.{decimal};
ghost use Rattle.hex.specs.Hex.{encode_lower};
ghost use Rattle.comp_lines.specs.Texts.{escaped, quoted};

use std::alloc::AllocError;
use std::fmt::Write;

/// Writes a number in decimal digits.
///
/// It refuses only when out of memory.
pub fn put_number(out: &mut String, number: u64) -> Result<(), AllocError>
    ensures { OnOk result (string_bytes out.new ≡ string_bytes out.old ++ decimal number) }
{
    if write!(out, "{number}").is_err() {
        return Err(AllocError);
    }
    Ok(())
}

/// Writes bytes as hexadecimal digits.
///
/// It refuses only when out of memory.
pub fn put_hex(out: &mut String, bytes: &[u8]) -> Result<(), AllocError>
    ensures { OnOk result (string_bytes out.new ≡ string_bytes out.old ++ encode_lower bytes.now) }
{
    let digits = hex::encode(*out.allocator(), bytes)?;
    out.push_str(digits.as_str())?;
    Ok(())
}

/// Writes an ASCII character of a text in quotes.
fn put_escaped_ascii(out: &mut String, byte: u8) -> Result<(), AllocError>
    requires { byte < 128 }
    ensures { OnOk result (string_bytes out.new ≡ string_bytes out.old ++ escaped byte) }
{
    if byte == b'"' || byte == b'\\' {
        out.push('\\')?;
        out.push(char::from(byte))?;
        return Ok(());
    }
    if byte < 0x20 || byte == 0x7f {
        out.push('\\')?;
        return put_hex(out, &[byte]);
    }
    out.push(char::from(byte))?;
    Ok(())
}

/// Writes a character of a text in quotes.
#[tactic(auto, using(crate::proofs::Wide::escapes))]
fn put_escaped(out: &mut String, c: char) -> Result<(), AllocError>
    ensures { OnOk result
        (string_bytes out.new ≡ string_bytes out.old ++ flat_map escaped (encode_utf8 c)) }
{
    if c.is_ascii() {
        put_escaped_ascii(out, c as u32 as u8)
    } else {
        out.push(c)
    }
}

fn put_escaped_all(out: &mut String, text: &str) -> Result<(), AllocError>
    ensures { OnOk result
        (string_bytes out.new ≡ string_bytes out.old ++ flat_map escaped text.now) }
{
    for c in text.chars() {
        put_escaped(out, c)?;
    }
    Ok(())
}

/// Writes a text in quotes: quotes, backslashes and control characters in it get a backslash.
///
/// It refuses only when out of memory.
pub fn put_quoted(out: &mut String, text: &str) -> Result<(), AllocError>
    ensures { OnOk result (string_bytes out.new ≡ string_bytes out.old ++ quoted text.now) }
{
    out.push('"')?;
    put_escaped_all(out, text)?;
    out.push('"')?;
    Ok(())
}
