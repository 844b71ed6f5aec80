// Texts that contracts see as a list of characters, whatever room they have.
ghost use Rattle.std.specs.Prelude.{◌≡◌, ◌==◌, List, ℕ, [], length, IfOk, encode_utf8_all, true};
ghost use Rattle.std.specs.Str.{chars, all_scalars};
ghost use Rattle.std.specs.String.{string_bytes};

use std::marker::Model;

/// A text of Unicode characters, over a `String`.
#[derive(Clone, Debug, Drop)]
pub struct Text {
    string: String,
}

impl Model for Text {
    ghost Value = { List ℕ };

    ghost view = { λ t. chars (string_bytes t.string) };
}

impl Text {
    /// The text of the same characters. It takes no memory.
    pub fn from_string(string: String) -> Text
        ensures { result ≡ chars (string_bytes string) }
    {
        Text { string }
    }

    /// The characters in UTF-8. It takes no memory.
    pub fn into_string(self) -> String
        ensures { string_bytes result ≡ encode_utf8_all self }
    {
        self.string
    }

    /// How many bytes the characters have in UTF-8.
    pub fn len(&self) -> usize
        ensures { result ≡ length (encode_utf8_all self.now) }
    {
        self.string.as_bytes().len()
    }

    /// Whether there is no character.
    pub fn is_empty(&self) -> bool
        ensures { result ≡ (length self.now == 0) }
    {
        self.string.as_bytes().is_empty()
    }

    /// The characters in UTF-8, lent: for iteration and slicing.
    pub fn as_str(&self) -> &str
        ensures bytes { result.now ≡ encode_utf8_all self.now }
        ensures characters { chars result.now ≡ self.now }
        ensures scalars { all_scalars self.now ≡ true }
    {
        self.string.as_str()
    }
}

impl PartialEq for Text {
    ghost use Rattle.std.specs.Str.{bytes_eq};
    ghost use Rattle.std.specs.Cmp.{partial_equiv_from_equiv};
    ghost use Rattle.std.specs.Cmp.Lexicographic.{nat_list_eq_equiv};

    ghost eq = { bytes_eq };

    ghost laws = { partial_equiv_from_equiv nat_list_eq_equiv };

    fn eq(&self, other: &Text) -> bool {
        self.string == other.string
    }
}

impl Eq for Text {
    ghost use Rattle.std.specs.Cmp.Lexicographic.{nat_list_eq_equiv};

    ghost laws = { nat_list_eq_equiv };
}
