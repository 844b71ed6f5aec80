// Bytes as a line says them: `\r`, `\n`, `\t` and `\\`, `\x7f` by its two digits, and `\(3 ab)` for
// these bytes three times, none of them escaped. Everything else stands for itself.
use anyhow::Result;
use std::alloc::Global;

/// The bytes of a text, where each backslash in it can be read.
pub fn bytes_in(alloc: Global, text: &str) -> Result<Option<Vec<u8>>> {
    let mut bytes = Vec::new(alloc);
    let mut rest = text;
    for _ in 0..=text.len() {
        let Some((plain, escape)) = rest.split_once("\\") else {
            bytes.extend_from_slice(rest.as_bytes())?;
            return Ok(Some(bytes));
        };
        bytes.extend_from_slice(plain.as_bytes())?;
        let Some(after) = push_escape(&mut bytes, escape)? else {
            return Ok(None);
        };
        rest = after;
    }
    Ok(None)
}

// Adds the bytes of what stands behind a backslash, and gives what follows it.
fn push_escape<'t>(bytes: &mut Vec<u8>, escape: &'t str) -> Result<Option<&'t str>> {
    if let Some(after) = escape.strip_prefix("x") {
        return push_digits(bytes, after);
    }
    if let Some(after) = escape.strip_prefix("(") {
        return push_repeated(bytes, after);
    }
    for (name, byte) in [("r", b'\r'), ("n", b'\n'), ("t", b'\t'), ("\\", b'\\')] {
        if let Some(after) = escape.strip_prefix(name) {
            bytes.push(byte)?;
            return Ok(Some(after));
        }
    }
    Ok(None)
}

// Two hexadecimal digits.
fn push_digits<'t>(bytes: &mut Vec<u8>, text: &'t str) -> Result<Option<&'t str>> {
    match (text.get(..2), text.get(2..)) {
        (Some(digits), Some(after)) => match u8::from_str_radix(digits, 16) {
            Ok(byte) => {
                bytes.push(byte)?;
                Ok(Some(after))
            }
            Err(_) => Ok(None),
        },
        _ => Ok(None),
    }
}

// A count, a space, and what is repeated, up to a bracket.
fn push_repeated<'t>(bytes: &mut Vec<u8>, text: &'t str) -> Result<Option<&'t str>> {
    let Some((inside, after)) = text.split_once(")") else {
        return Ok(None);
    };
    let Some((count, piece)) = inside.split_once(" ") else {
        return Ok(None);
    };
    let Ok(count) = count.parse::<u32>() else {
        return Ok(None);
    };
    for _ in 0..count {
        bytes.extend_from_slice(piece.as_bytes())?;
    }
    Ok(Some(after))
}

/// The bytes as a text, each that isn't a visible ASCII character or a space escaped.
pub fn escaped(alloc: Global, bytes: &[u8]) -> Result<String> {
    let mut text = String::new(alloc);
    for byte in bytes {
        match *byte {
            b'\r' => text.push_str("\\r")?,
            b'\n' => text.push_str("\\n")?,
            b'\\' => text.push_str("\\\\")?,
            b' '..=b'~' => text.push(char::from(*byte))?,
            other => write!(text, "\\x{other:02x}")?,
        }
    }
    Ok(text)
}
