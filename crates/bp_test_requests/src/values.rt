// What replies are made of, as a line gives it: the words of each part in the order of its fields.
use bp_bates::{Prefix, Span};
use bp_core::{DocNo, Ink, ListOf, StaffNo, Text, TextList};
use bp_matter::{
    BoxList, BoxRow, DocView, Entry, HeldList, HeldRow, Item, ItemList, Production, Request, State,
};
use bp_rows::{Page, Res, Unit};
use bp_test_words::Words;
use bp_text::{Word, WordList};
use std::alloc::Global;

/// `DOC PARENT PAGES EDITOR CONFIRMER yes|no TREATMENT DESIGNATION`, then the count of boxes and each
/// box, the count of held fields and each, and `none` or `entry` and its four texts. EDITOR is 0 for
/// none, and so is CONFIRMER.
pub fn document(alloc: Global, words: &mut Words) -> DocView {
    let doc = words.doc();
    let parent = words.doc();
    let pages = words.number();
    let state = state(words);
    let responsive = words.yes_or_no();
    let treatment = words.treatment();
    let designation = words.text();
    let boxes = boxes(alloc, words);
    let held = held(alloc, words);
    let entry = entry(words);
    DocView {
        doc,
        parent,
        pages,
        state,
        responsive,
        treatment,
        designation,
        boxes,
        held,
        entry,
    }
}

/// `EDITOR CONFIRMER`, 0 for none.
pub fn state(words: &mut Words) -> State {
    let editor = words.number();
    let confirmer = words.number();
    if editor == 0 {
        State::Uncalled
    } else if confirmer == 0 {
        State::First(StaffNo(editor))
    } else {
        State::Confirmed(StaffNo(editor), StaffNo(confirmer))
    }
}

/// How many of something follow: few, so that a line can hold them.
pub fn count(words: &mut Words) -> u32 {
    words.number().min(100)
}

// Each `NUM PAGE LEFT TOP WIDTH HEIGHT BASIS`.
fn boxes(alloc: Global, words: &mut Words) -> BoxList {
    let mut rows = Vec::new(alloc);
    for _ in 0..count(words) {
        let num = words.number();
        let page = words.page();
        let rect = words.rect();
        let basis = words.basis();
        let row = BoxRow {
            num,
            page,
            rect,
            basis,
        };
        if rows.push(row).is_err() {
            words.refuse();
        }
    }
    ListOf::from_vec(rows)
}

// Each `FIELD BASIS`.
fn held(alloc: Global, words: &mut Words) -> HeldList {
    let mut rows = Vec::new(alloc);
    for _ in 0..count(words) {
        let field = words.number();
        let basis = words.basis();
        if rows.push(HeldRow { field, basis }).is_err() {
            words.refuse();
        }
    }
    ListOf::from_vec(rows)
}

fn entry(words: &mut Words) -> Option<Entry> {
    if words.word() == "none" {
        return None;
    }
    let date = words.text();
    let author = words.text();
    let recipients = words.text();
    let description = words.text();
    Some(Entry {
        date,
        author,
        recipients,
        description,
    })
}

/// Each `LINE LEFT TOP WIDTH HEIGHT TEXT`.
pub fn words_of(alloc: Global, words: &mut Words) -> WordList {
    let mut rows = Vec::new(alloc);
    for _ in 0..count(words) {
        let line = words.number();
        let rect = words.rect();
        let text = words.text();
        if rows.push(Word { line, rect, text }).is_err() {
            words.refuse();
        }
    }
    ListOf::from_vec(rows)
}

/// `ID VOLUME PREFIX WIDTH FIRST LAST`, then the count of items and each `DOC TREATMENT FIRST LAST`.
pub fn production(alloc: Global, words: &mut Words) -> Production {
    let request = request(alloc, words);
    let span = span(words);
    let items = items(alloc, words);
    Production {
        ink: Ink::Lettered,
        request,
        items,
        span,
    }
}

fn request(alloc: Global, words: &mut Words) -> Request {
    let id = words.text();
    let volume = words.text();
    let text = words.text();
    let width = words.byte();
    Request {
        id,
        volume,
        prefix: Prefix { text, width },
        from: DocNo(1),
        to: DocNo(1),
        fields: no_texts(alloc),
    }
}

fn no_texts(alloc: Global) -> TextList {
    ListOf::new(alloc)
}

/// `FIRST LAST`.
pub fn span(words: &mut Words) -> Span {
    let first = words.long_number();
    let last = words.long_number();
    Span { first, last }
}

fn items(alloc: Global, words: &mut Words) -> ItemList {
    let mut rows = Vec::new(alloc);
    for _ in 0..count(words) {
        let item = item(alloc, words);
        if rows.push(item).is_err() {
            words.refuse();
        }
    }
    ListOf::from_vec(rows)
}

fn item(alloc: Global, words: &mut Words) -> Item {
    let doc = words.doc();
    let treatment = words.treatment();
    let span = span(words);
    Item {
        doc,
        parent: doc,
        treatment,
        boxes: ListOf::new(alloc),
        held: ListOf::new(alloc),
        entry: None,
        designation: no_text(alloc),
        span,
    }
}

fn no_text(alloc: Global) -> Text {
    Text::from_string(String::new(alloc))
}

/// `WIDTH HEIGHT` of a white page, 200 dots to the inch.
pub fn page(alloc: Global, words: &mut Words) -> Option<Page> {
    let width = words.number();
    let height = words.number();
    let dots = Res { num: 200, den: 1 };
    Page::white(alloc, width, height, dots, dots, Unit::Inch).ok()
}
