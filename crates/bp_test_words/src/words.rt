// The words of a line, read one after another.
use bp_core::{Basis, DocNo, ListOf, PageNo, Rect, Role, Text, TextList, Treatment};
use std::alloc::{AllocError, Global};

/// A reader of words. A word that is missing or can't be read gives an empty value and is noted, so
/// that whoever reads several words asks once, at their end, by `is_read`.
#[derive(Clone, Copy)]
pub struct Words<'a> {
    alloc: Global,
    words: &'a [&'a str],
    // The place of the next word.
    at: usize,
    is_bad: bool,
}

impl<'a> Words<'a> {
    pub fn over(alloc: Global, words: &'a [&'a str]) -> Words<'a> {
        Words {
            alloc,
            words,
            at: 0,
            is_bad: false,
        }
    }

    /// Whether a word is left.
    pub fn has_more(&self) -> bool {
        self.at < self.words.len()
    }

    /// How many words are left.
    pub fn count(&self) -> usize {
        self.words.len().saturating_sub(self.at)
    }

    /// Whether no word is left, and each was there and could be read.
    pub fn is_read(&self) -> bool {
        self.at >= self.words.len() && !self.is_bad
    }

    /// Notes that a word can't be read.
    pub fn refuse(&mut self) {
        self.is_bad = true;
    }

    pub fn word(&mut self) -> &'a str {
        let at = self.at;
        self.at = at.saturating_add(1);
        if at < self.words.len() {
            self.words[at]
        } else {
            self.is_bad = true;
            ""
        }
    }

    pub fn number(&mut self) -> u32 {
        let word = self.word();
        self.number_in(word)
    }

    fn number_in(&mut self, word: &str) -> u32 {
        match word.parse::<u32>() {
            Ok(number) => number,
            Err(_) => {
                self.is_bad = true;
                0
            }
        }
    }

    pub fn long_number(&mut self) -> u64 {
        match self.word().parse::<u64>() {
            Ok(number) => number,
            Err(_) => {
                self.is_bad = true;
                0
            }
        }
    }

    pub fn byte(&mut self) -> u8 {
        match self.word().parse::<u8>() {
            Ok(number) => number,
            Err(_) => {
                self.is_bad = true;
                0
            }
        }
    }

    pub fn doc(&mut self) -> DocNo {
        DocNo(self.number())
    }

    pub fn page(&mut self) -> PageNo {
        PageNo(self.number())
    }

    /// The digest that is this byte 32 times.
    pub fn digest(&mut self) -> [u8; 32] {
        [self.byte(); 32]
    }

    /// Left, top, width and height.
    pub fn rect(&mut self) -> Rect {
        let left = self.number();
        let top = self.number();
        let width = self.number();
        let height = self.number();
        Rect {
            left,
            top,
            width,
            height,
        }
    }

    pub fn yes_or_no(&mut self) -> bool {
        let word = self.word();
        self.is_bad = self.is_bad || word != "yes" && word != "no";
        word == "yes"
    }

    pub fn role(&mut self) -> Role {
        match self.word() {
            "reviewer" => Role::Reviewer,
            "second" => Role::Second,
            "lead" => Role::Lead,
            "clerk" => Role::Clerk,
            "receiver" => Role::Receiver,
            _ => {
                self.is_bad = true;
                Role::Receiver
            }
        }
    }

    pub fn basis(&mut self) -> Basis {
        let word = self.word();
        self.basis_of(word)
    }

    fn basis_of(&mut self, word: &str) -> Basis {
        match word {
            "AC" => Basis::Ac,
            "WP" => Basis::Wp,
            "PI" => Basis::Pi,
            "TS" => Basis::Ts,
            _ => {
                self.is_bad = true;
                Basis::Ac
            }
        }
    }

    /// `produce`, `redact`, or the ground on which the document is withheld.
    pub fn treatment(&mut self) -> Treatment {
        match self.word() {
            "produce" => Treatment::Produce,
            "redact" => Treatment::Redact,
            ground => Treatment::Withhold(self.basis_of(ground)),
        }
    }

    /// A text: `-` is the empty one, `_` a space, and `%41` the byte of these two hexadecimal digits.
    pub fn text(&mut self) -> Text {
        let word = self.word();
        let bytes = self.bytes_of(if word == "-" { "" } else { word });
        match String::from_utf8(bytes) {
            Ok(string) => Text::from_string(string),
            Err(_) => {
                self.is_bad = true;
                Text::from_string(String::new(self.alloc))
            }
        }
    }

    fn bytes_of(&mut self, word: &str) -> Vec<u8> {
        let mut bytes = Vec::new(self.alloc);
        self.push_text(&mut bytes, word);
        bytes
    }

    fn push_text(&mut self, bytes: &mut Vec<u8>, word: &str) {
        if push_bytes(bytes, word.as_bytes()).is_err() {
            self.is_bad = true;
        }
    }

    /// Adds the bytes of the texts of all words that are left, one behind another. They needn't be
    /// UTF-8.
    pub fn add_texts(&mut self, bytes: &mut Vec<u8>) {
        for _ in self.at..self.words.len() {
            let word = self.word();
            self.push_text(bytes, if word == "-" { "" } else { word });
        }
    }

    /// The texts of all words that are left.
    pub fn texts(&mut self) -> TextList {
        let mut texts = Vec::new(self.alloc);
        for _ in self.at..self.words.len() {
            let text = self.text();
            if texts.push(text).is_err() {
                self.is_bad = true;
            }
        }
        ListOf::from_vec(texts)
    }

    /// The bytes of pairs of hexadecimal digits.
    pub fn bytes(&mut self) -> Vec<u8> {
        let word = self.word();
        self.bytes_in(word)
    }

    fn bytes_in(&mut self, digits: &str) -> Vec<u8> {
        match hex::decode(self.alloc, digits) {
            Ok(bytes) => bytes,
            Err(_) => {
                self.is_bad = true;
                Vec::new(self.alloc)
            }
        }
    }

    /// Adds the bytes of all words that are left, each pairs of hexadecimal digits, or as `00*9`, a
    /// pair and how often it stands there. `-` is none.
    pub fn add_bytes(&mut self, bytes: &mut Vec<u8>) {
        for _ in self.at..self.words.len() {
            let word = self.word();
            match word.split_once("*") {
                Some((digits, times)) => {
                    let times = self.number_in(times);
                    self.push_hex(bytes, digits, times);
                }
                None => self.push_hex(bytes, if word == "-" { "" } else { word }, 1),
            }
        }
    }

    fn push_hex(&mut self, bytes: &mut Vec<u8>, digits: &str, times: u32) {
        let piece = self.bytes_in(digits);
        if push_pieces(self.alloc, bytes, &piece, times).is_err() {
            self.is_bad = true;
        }
    }
}

// Adds a piece so often; a single byte at one go.
fn push_pieces(
    alloc: Global,
    bytes: &mut Vec<u8>,
    piece: &[u8],
    times: u32,
) -> Result<(), AllocError> {
    if let [byte] = piece {
        let run = vec![in alloc; *byte; times as usize]?;
        return bytes.extend_from_slice(&run);
    }
    for _ in 0..times {
        bytes.extend_from_slice(piece)?;
    }
    Ok(())
}

fn push_bytes(bytes: &mut Vec<u8>, word: &[u8]) -> Result<(), AllocError> {
    // The digits that are still to come behind a percent sign, and what they have come to.
    let mut digits = 0u8;
    let mut value = 0u8;
    for byte in word {
        if digits > 0 {
            digits -= 1;
            value = value.wrapping_mul(16).wrapping_add(nibble(*byte));
            if digits == 0 {
                bytes.push(value)?;
            }
        } else if *byte == b'%' {
            digits = 2;
        } else {
            bytes.push(if *byte == b'_' { b' ' } else { *byte })?;
        }
    }
    Ok(())
}

fn nibble(digit: u8) -> u8 {
    match digit {
        b'0'..=b'9' => digit - b'0',
        b'a'..=b'f' => digit - b'a' + 10,
        _ => 0,
    }
}
