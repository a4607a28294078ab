// Texts in quotes.
ghost use Rattle.std.specs.Prelude.{◌≡◌, ◌++◌, OnOk, encode_utf8};
ghost use Rattle.std.specs.List.{flat_map};
ghost use Rattle.std.specs.String.{string_bytes};
ghost use Rattle.ts_base.specs.Quoted.{doubled_byte, quoted_text};

use std::alloc::AllocError;

/// Appends the text in quotes, with quotes and backslashes doubled.
pub fn push_quoted(out: &mut String, text: &str) -> Result<(), AllocError>
    ensures { OnOk result (string_bytes out.new ≡ string_bytes out.old ++ quoted_text text.now) }
{
    out.push('\'')?;
    for c in text.chars() {
        push_doubled(out, c)?;
    }
    out.push('\'')?;
    Ok(())
}

/// Appends the character, twice if it is a quote or a backslash.
fn push_doubled(out: &mut String, c: char) -> Result<(), AllocError>
    ensures { OnOk result
        (string_bytes out.new ≡ string_bytes out.old ++ flat_map doubled_byte (encode_utf8 c)) }
{
    if c == '\'' || c == '\\' {
        out.push(c)?;
        out.push(c)?;
        return Ok(());
    }
    out.push(c)?;
    Ok(())
}
