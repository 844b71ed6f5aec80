// Calls over document 1.
use bp_bates::Prefix;
use bp_core::{Basis, DocNo, PageNo, Rect, Text, TextList, Treatment};
use bp_matter::{BoxRow, Call, Request};
use std::alloc::{AllocError, Global};

const DOC: DocNo = DocNo(1);

/// A box of this number on the first page.
pub fn box_of(num: u32) -> BoxRow {
    BoxRow {
        num,
        page: PageNo(1),
        rect: Rect {
            left: 0,
            top: 0,
            width: 8,
            height: 1,
        },
        basis: Basis::Pi,
    }
}

/// Puts this box.
pub fn put_box(row: BoxRow) -> Call {
    let BoxRow {
        num,
        page,
        rect,
        basis,
    } = row;
    Call::PutBox {
        doc: DOC,
        num,
        page,
        rect,
        basis,
    }
}

/// Calls the document responsive, to be redacted.
pub fn call_redact(alloc: Global) -> Call {
    Call::SetCall {
        doc: DOC,
        responsive: true,
        treatment: Treatment::Redact,
        designation: Text::from_string(String::new(alloc)),
    }
}

pub fn see_doc() -> Call {
    Call::SeeDoc { doc: DOC }
}

/// Freezes the production `Q` of the document.
pub fn freeze(alloc: Global) -> Result<Call, AllocError> {
    let request = Request {
        id: text(alloc, "Q")?,
        volume: text(alloc, "V1")?,
        prefix: Prefix {
            text: text(alloc, "AB-")?,
            width: 4,
        },
        from: DOC,
        to: DOC,
        fields: TextList::new(alloc),
    };
    Ok(Call::Freeze { request })
}

pub fn get_production(alloc: Global) -> Result<Call, AllocError> {
    Ok(Call::GetProduction {
        id: text(alloc, "Q")?,
    })
}

fn text(alloc: Global, text: &str) -> Result<Text, AllocError> {
    Ok(Text::from_string(String::from_str(alloc, text)?))
}
