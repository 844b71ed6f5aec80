// The lines of a load file, from its front.
ghost use Rattle.std.specs.Prelude.{◌≡◌, ◌<◌, ◌≤◌, ◌∷◌, [], length, MatchOption, IfSome};
ghost use Rattle.std.specs.Str.Lines.{lines, strip_carriage_return};
ghost use Rattle.bp_load.specs.Lines.{without_mark, filled_lines};

/// The file without the byte order mark at its head, if it has one.
pub fn without_mark(bytes: &[u8]) -> &[u8]
    ensures rest { result.now ≡ without_mark bytes.now }
    ensures shorter { length result.now ≤ length bytes.now }
{
    if bytes.starts_with(b"\xEF\xBB\xBF") {
        &bytes[3..]
    } else {
        bytes
    }
}

/// The first line without its end, and what follows that end.
pub fn first_line(bytes: &[u8]) -> (&[u8], &[u8])
    requires { 0 < length bytes.now }
    ensures line { lines bytes.now ≡ result.0.now ∷ lines result.1.now }
    ensures shorter { length result.1.now < length bytes.now }
{
    match bytes.iter().position(|byte| *byte == b'\n') {
        None => (bytes, &[]),
        Some(end) => (without_return(&bytes[..end]), &bytes[end + 1..]),
    }
}

fn without_return(line: &[u8]) -> &[u8]
    ensures { result.now ≡ strip_carriage_return line.now }
{
    match line {
        [front @ .., b'\r'] => front,
        _ => line,
    }
}

/// The text without the byte order mark at its head, if it has one.
pub fn text_without_mark(text: &str) -> &str
    ensures rest { result.now ≡ without_mark text.now }
    ensures shorter { length result.now ≤ length text.now }
{
    text.strip_prefix('\u{feff}').unwrap_or(text)
}

/// The first line that isn't empty, without its end, and what follows that end.
pub fn first_filled_line(text: &str) -> Option<(&str, &str)>
    ensures lines { MatchOption result (filled_lines text.now ≡ [])
        (λ found. filled_lines text.now ≡ found.0.now ∷ filled_lines found.1.now) }
    ensures shorter { IfSome result (λ found. length found.1.now < length text.now) }
{
    let mut rest = text;
    while !rest.is_empty() {
        let (line, after) = first_text_line(rest);
        if !line.is_empty() {
            return Some((line, after));
        }
        rest = after;
    }
    None
}

// The first line without its end, and what follows that end.
fn first_text_line(text: &str) -> (&str, &str)
    requires { 0 < length text.now }
    ensures line { lines text.now ≡ result.0.now ∷ lines result.1.now }
    ensures shorter { length result.1.now < length text.now }
{
    match text.split_once('\n') {
        None => (text, ""),
        Some((line, after)) => (line.strip_suffix('\r').unwrap_or(line), after),
    }
}
