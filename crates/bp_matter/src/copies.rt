// Equal values in memory of their own.
ghost use Rattle.std.specs.Prelude.{◌≡◌, IfOk};

use crate::calls::Call;
use crate::rows::{BoxList, Entry, HeldList, Item, ItemList, Production, Request};
use bp_bates::Prefix;
use bp_core::{Basis, DocNo, ListOf, OutOfMemory, PageNo, Rect, Role, Text, TextList, Treatment};
use std::alloc::Global;

impl Production {
    /// An equal production.
    pub fn copy(&self, alloc: Global) -> Result<Production, OutOfMemory>
        ensures { IfOk result (λ production. production ≡ self.now) }
    {
        Ok(Production {
            ink: self.ink,
            request: self.request.copy(alloc)?,
            items: copy_items(alloc, &self.items)?,
            span: self.span,
        })
    }
}

impl Request {
    /// An equal request.
    pub fn copy(&self, alloc: Global) -> Result<Request, OutOfMemory>
        ensures { IfOk result (λ request. request ≡ self.now) }
    {
        let prefix = Prefix {
            text: copy_text(&self.prefix.text)?,
            width: self.prefix.width,
        };
        Ok(Request {
            id: copy_text(&self.id)?,
            volume: copy_text(&self.volume)?,
            prefix,
            from: self.from,
            to: self.to,
            fields: copy_texts(alloc, &self.fields)?,
        })
    }
}

impl Entry {
    /// An equal log entry.
    pub fn copy(&self) -> Result<Entry, OutOfMemory>
        ensures { IfOk result (λ entry. entry ≡ self.now) }
    {
        Ok(Entry {
            date: copy_text(&self.date)?,
            author: copy_text(&self.author)?,
            recipients: copy_text(&self.recipients)?,
            description: copy_text(&self.description)?,
        })
    }
}

impl Call {
    /// An equal call.
    pub fn copy(&self, alloc: Global) -> Result<Call, OutOfMemory>
        ensures { IfOk result (λ call. call ≡ self.now) }
    {
        match self {
            Call::AddStaff { name, role, digest } => copy_add_staff(name, *role, *digest),
            Call::SeeDoc { doc } => Ok(Call::SeeDoc { doc: *doc }),
            Call::SeePage { doc, page } => Ok(see_page(*doc, *page)),
            Call::SeeWords { doc, page } => Ok(see_words(*doc, *page)),
            Call::SetCall {
                doc,
                responsive,
                treatment,
                designation,
            } => copy_set_call(*doc, *responsive, *treatment, designation),
            Call::PutBox {
                doc,
                num,
                page,
                rect,
                basis,
            } => Ok(put_box(*doc, *num, *page, *rect, *basis)),
            Call::DropBox { doc, num } => Ok(drop_box(*doc, *num)),
            Call::HoldField { doc, field, basis } => copy_hold_field(*doc, field, *basis),
            Call::FreeField { doc, field } => copy_free_field(*doc, field),
            Call::PutEntry {
                doc,
                date,
                author,
                recipients,
                description,
            } => copy_put_entry(*doc, date, author, recipients, description),
            Call::Confirm { doc } => Ok(Call::Confirm { doc: *doc }),
            Call::SendBack { doc } => Ok(Call::SendBack { doc: *doc }),
            Call::Freeze { request } => copy_freeze(alloc, request),
            Call::GetProduction { id } => copy_get_production(id),
            Call::SeeStates { from } => Ok(Call::SeeStates { from: *from }),
            Call::SeeValues { doc } => Ok(Call::SeeValues { doc: *doc }),
            Call::SeeStaff => Ok(Call::SeeStaff),
            Call::SeeProductions => Ok(Call::SeeProductions),
            Call::Find { terms, from, page } => copy_find(alloc, terms, *from, *page),
            Call::Plan { request } => copy_plan(alloc, request),
        }
    }
}

fn copy_add_staff(name: &Text, role: Role, digest: [u8; 32]) -> Result<Call, OutOfMemory>
    ensures { IfOk result (λ call. call ≡ Call.AddStaff name.now role digest) }
{
    Ok(Call::AddStaff {
        name: copy_text(name)?,
        role,
        digest,
    })
}

fn see_page(doc: DocNo, page: PageNo) -> Call
    ensures { result ≡ Call.SeePage doc page }
{
    Call::SeePage { doc, page }
}

fn see_words(doc: DocNo, page: PageNo) -> Call
    ensures { result ≡ Call.SeeWords doc page }
{
    Call::SeeWords { doc, page }
}

fn copy_set_call(
    doc: DocNo,
    responsive: bool,
    treatment: Treatment,
    designation: &Text,
) -> Result<Call, OutOfMemory>
    ensures { IfOk result (λ call. call ≡ Call.SetCall doc responsive treatment designation.now) }
{
    Ok(Call::SetCall {
        doc,
        responsive,
        treatment,
        designation: copy_text(designation)?,
    })
}

fn put_box(doc: DocNo, num: u32, page: PageNo, rect: Rect, basis: Basis) -> Call
    ensures { result ≡ Call.PutBox doc num page rect basis }
{
    Call::PutBox {
        doc,
        num,
        page,
        rect,
        basis,
    }
}

fn drop_box(doc: DocNo, num: u32) -> Call
    ensures { result ≡ Call.DropBox doc num }
{
    Call::DropBox { doc, num }
}

fn copy_hold_field(doc: DocNo, field: &Text, basis: Basis) -> Result<Call, OutOfMemory>
    ensures { IfOk result (λ call. call ≡ Call.HoldField doc field.now basis) }
{
    Ok(Call::HoldField {
        doc,
        field: copy_text(field)?,
        basis,
    })
}

fn copy_free_field(doc: DocNo, field: &Text) -> Result<Call, OutOfMemory>
    ensures { IfOk result (λ call. call ≡ Call.FreeField doc field.now) }
{
    Ok(Call::FreeField {
        doc,
        field: copy_text(field)?,
    })
}

fn copy_put_entry(
    doc: DocNo,
    date: &Text,
    author: &Text,
    recipients: &Text,
    description: &Text,
) -> Result<Call, OutOfMemory>
    ensures { IfOk result (λ call. call ≡ Call.PutEntry doc date.now author.now recipients.now description.now) }
{
    Ok(Call::PutEntry {
        doc,
        date: copy_text(date)?,
        author: copy_text(author)?,
        recipients: copy_text(recipients)?,
        description: copy_text(description)?,
    })
}

fn copy_freeze(alloc: Global, request: &Request) -> Result<Call, OutOfMemory>
    ensures { IfOk result (λ call. call ≡ Call.Freeze request.now) }
{
    Ok(Call::Freeze {
        request: request.copy(alloc)?,
    })
}

fn copy_get_production(id: &Text) -> Result<Call, OutOfMemory>
    ensures { IfOk result (λ call. call ≡ Call.GetProduction id.now) }
{
    Ok(Call::GetProduction { id: copy_text(id)? })
}

fn copy_find(alloc: Global, terms: &TextList, from: DocNo, page: u32) -> Result<Call, OutOfMemory>
    ensures { IfOk result (λ call. call ≡ Call.Find terms.now from page) }
{
    Ok(Call::Find {
        terms: copy_texts(alloc, terms)?,
        from,
        page,
    })
}

fn copy_plan(alloc: Global, request: &Request) -> Result<Call, OutOfMemory>
    ensures { IfOk result (λ call. call ≡ Call.Plan request.now) }
{
    Ok(Call::Plan {
        request: request.copy(alloc)?,
    })
}

fn copy_text(text: &Text) -> Result<Text, OutOfMemory>
    ensures { IfOk result (λ copy. copy ≡ text.now) }
{
    Ok(text.clone()?)
}

fn copy_texts(alloc: Global, texts: &TextList) -> Result<TextList, OutOfMemory>
    ensures { IfOk result (λ copies. copies ≡ texts.now) }
{
    let mut copies = Vec::new(alloc);
    for text in texts.as_slice() {
        copies.push(copy_text(text)?)?;
    }
    Ok(ListOf::from_vec(copies))
}

fn copy_boxes(alloc: Global, rows: &BoxList) -> Result<BoxList, OutOfMemory>
    ensures { IfOk result (λ copies. copies ≡ rows.now) }
{
    let mut copies = Vec::new(alloc);
    for row in rows.as_slice() {
        copies.push(*row)?;
    }
    Ok(ListOf::from_vec(copies))
}

fn copy_held(alloc: Global, rows: &HeldList) -> Result<HeldList, OutOfMemory>
    ensures { IfOk result (λ copies. copies ≡ rows.now) }
{
    let mut copies = Vec::new(alloc);
    for row in rows.as_slice() {
        copies.push(*row)?;
    }
    Ok(ListOf::from_vec(copies))
}

fn copy_entry(entry: &Option<Entry>) -> Result<Option<Entry>, OutOfMemory>
    ensures { IfOk result (λ copy. copy ≡ entry.now) }
{
    match entry {
        None => Ok(None),
        Some(entry) => Ok(Some(entry.copy()?)),
    }
}

fn copy_item(alloc: Global, item: &Item) -> Result<Item, OutOfMemory>
    ensures { IfOk result (λ copy. copy ≡ item.now) }
{
    Ok(Item {
        doc: item.doc,
        parent: item.parent,
        treatment: item.treatment,
        boxes: copy_boxes(alloc, &item.boxes)?,
        held: copy_held(alloc, &item.held)?,
        entry: copy_entry(&item.entry)?,
        designation: copy_text(&item.designation)?,
        span: item.span,
    })
}

fn copy_items(alloc: Global, items: &ItemList) -> Result<ItemList, OutOfMemory>
    ensures { IfOk result (λ copies. copies ≡ items.now) }
{
    let mut copies = Vec::new(alloc);
    for item in items.as_slice() {
        copies.push(copy_item(alloc, item)?)?;
    }
    Ok(ListOf::from_vec(copies))
}
