// What stands between the separators of a line.
ghost use Rattle.std.specs.Prelude.{◌≡◌, ◌<◌, [], length, drop, slice_index_or, nat_lt, is_some};
ghost use Rattle.std.specs.Option.{option_copied};
ghost use Rattle.bp_load.specs.Fields.{fields_in};

/// The field up to the next separator, an ASCII character, and what follows that separator. A missing
/// field is empty.
pub fn next_field(rest: Option<&str>, separator: char) -> (&str, Option<&str>)
    requires { separator < 128 }
    ensures field { let fields = fields_in separator (option_copied rest.entry) in
        result.0.now ≡ slice_index_or fields 0 [] }
    ensures others { let fields = fields_in separator (option_copied rest.entry) in
        fields_in separator (option_copied result.1) ≡ drop 1 fields }
    ensures more { let fields = fields_in separator (option_copied rest.entry) in
        is_some result.1 ≡ nat_lt 1 (length fields) }
{
    let Some(text) = rest else {
        return ("", None);
    };
    match text.split_once(separator) {
        Some((field, others)) => (field, Some(others)),
        None => (text, None),
    }
}
