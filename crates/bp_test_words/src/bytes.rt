// Bytes and texts, as a line says them.
use anyhow::Result;
use std::alloc::Global;

// The longest run of equal bytes whose digits are all written out.
const WRITTEN_OUT: usize = 8;

/// Pairs of hexadecimal digits; in place of nine equal bytes or more stands a word as `00*9`.
pub fn hex_words(alloc: Global, bytes: &[u8]) -> Result<String> {
    let mut text = String::new(alloc);
    let mut is_apart = true;
    let mut rest = bytes;
    for _ in 0..bytes.len() {
        let Some((first, others)) = rest.split_first() else {
            break;
        };
        let same = others
            .iter()
            .position(|byte| *byte != *first)
            .unwrap_or(others.len());
        let is_long = same >= WRITTEN_OUT;
        if !is_apart || is_long && !text.is_empty() {
            text.push(' ')?;
        }
        is_apart = !is_long;
        if is_long {
            let count = same.saturating_add(1);
            write!(text, "{first:02x}*{count}")?;
            rest = &others[same..];
        } else {
            write!(text, "{first:02x}")?;
            rest = others;
        }
    }
    Ok(text)
}

/// A text as `Words::text` reads it: a space is `_`, and what would be misread is `%` and the two
/// digits of its byte.
pub fn escaped(alloc: Global, text: &str) -> Result<String> {
    let mut out = String::new(alloc);
    for character in text.chars() {
        match character {
            ' ' => out.push('_')?,
            '_' | '%' | '\0'..='\x1f' | '\x7f' => {
                let code = character as u32;
                write!(out, "%{code:02x}")?;
            }
            _ => out.push(character)?,
        }
    }
    Ok(out)
}
