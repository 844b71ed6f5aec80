// Calls as lines write them.
use bp_bates::Prefix;
use bp_core::DocNo;
use bp_matter::{Call, Request};
use bp_test_words::Words;

/// The call of this name, with the words that follow as its operands.
pub fn call_of(words: &mut Words) -> Call {
    match words.word() {
        "AddStaff" => add_staff(words),
        "SetCall" => set_call(words),
        "PutBox" => put_box(words),
        "HoldField" => hold_field(words),
        "FreeField" => free_field(words),
        "PutEntry" => put_entry(words),
        "Freeze" => freeze(words),
        "GetProduction" => Call::GetProduction { id: words.text() },
        "SeeStates" => Call::SeeStates { from: words.doc() },
        "SeeStaff" => Call::SeeStaff,
        "SeeProductions" => Call::SeeProductions,
        "Find" => find(words),
        "Plan" => plan(words),
        name => of_document(name, words),
    }
}

// The calls whose operands are a document, and perhaps a number.
fn of_document(name: &str, words: &mut Words) -> Call {
    let doc = words.doc();
    match name {
        "SeeDoc" => Call::SeeDoc { doc },
        "SeeValues" => Call::SeeValues { doc },
        "Confirm" => Call::Confirm { doc },
        "SendBack" => Call::SendBack { doc },
        "SeePage" => see_page(doc, words),
        "SeeWords" => see_words(doc, words),
        "DropBox" => drop_box(doc, words),
        _ => {
            words.refuse();
            Call::SeeDoc { doc }
        }
    }
}

fn see_page(doc: DocNo, words: &mut Words) -> Call {
    let page = words.page();
    Call::SeePage { doc, page }
}

fn see_words(doc: DocNo, words: &mut Words) -> Call {
    let page = words.page();
    Call::SeeWords { doc, page }
}

fn drop_box(doc: DocNo, words: &mut Words) -> Call {
    let num = words.number();
    Call::DropBox { doc, num }
}

fn add_staff(words: &mut Words) -> Call {
    let name = words.text();
    let role = words.role();
    let digest = words.digest();
    Call::AddStaff { name, role, digest }
}

fn set_call(words: &mut Words) -> Call {
    let doc = words.doc();
    let responsive = words.yes_or_no();
    let treatment = words.treatment();
    let designation = words.text();
    Call::SetCall {
        doc,
        responsive,
        treatment,
        designation,
    }
}

fn put_box(words: &mut Words) -> Call {
    let doc = words.doc();
    let num = words.number();
    let page = words.page();
    let rect = words.rect();
    let basis = words.basis();
    Call::PutBox {
        doc,
        num,
        page,
        rect,
        basis,
    }
}

fn hold_field(words: &mut Words) -> Call {
    let doc = words.doc();
    let field = words.text();
    let basis = words.basis();
    Call::HoldField { doc, field, basis }
}

fn free_field(words: &mut Words) -> Call {
    let doc = words.doc();
    let field = words.text();
    Call::FreeField { doc, field }
}

fn put_entry(words: &mut Words) -> Call {
    let doc = words.doc();
    let date = words.text();
    let author = words.text();
    let recipients = words.text();
    let description = words.text();
    Call::PutEntry {
        doc,
        date,
        author,
        recipients,
        description,
    }
}

// The document and the page from which it is searched, and the terms.
fn find(words: &mut Words) -> Call {
    let from = words.doc();
    let page = words.number();
    let terms = words.texts();
    Call::Find { terms, from, page }
}

fn freeze(words: &mut Words) -> Call {
    let request = request(words);
    Call::Freeze { request }
}

fn plan(words: &mut Words) -> Call {
    let request = request(words);
    Call::Plan { request }
}

fn request(words: &mut Words) -> Request {
    let id = words.text();
    let volume = words.text();
    let text = words.text();
    let width = words.byte();
    let from = words.doc();
    let to = words.doc();
    let fields = words.texts();
    let prefix = Prefix { text, width };
    Request {
        id,
        volume,
        prefix,
        from,
        to,
        fields,
    }
}
