//! Paths into JSON.

ghost use Rattle.std.specs.Prelude.{◌≡◌, ◌++◌, ◌∷◌, IfOk, OnOk, string_bytes};
ghost use Rattle.json_paths.specs.Paths.{escaped_char, escaped};

use comp_lists::Text;
use std::alloc::{AllocError, Global};

/// Writes a character of a path: `~` as `~0`, and `/` as `~1`.
fn push_char(path: &mut String, c: char) -> Result<(), AllocError>
    ensures { OnOk result (string_bytes path.new ≡ string_bytes path.old ++ escaped_char c) }
{
    match c {
        '~' => path.push_str("~0"),
        '/' => path.push_str("~1"),
        _ => path.push(c),
    }
}

/// Writes a part of a path.
fn push_escaped(path: &mut String, part: &str) -> Result<(), AllocError>
    ensures { OnOk result (string_bytes path.new ≡ string_bytes path.old ++ escaped part.now) }
{
    for c in part.chars() {
        push_char(path, c)?;
    }
    Ok(())
}

/// A path with one more part in front.
pub(crate) fn under_part(alloc: Global, part: &str, path: &Text) -> Result<Text, AllocError>
    ensures { IfOk result (λ t. t ≡ 47 ∷ escaped part.now ++ path.now) }
{
    let mut text = String::from_str(alloc, "/")?;
    push_escaped(&mut text, part)?;
    text.push_str(path.as_str())?;
    Ok(Text::from_string(text))
}
