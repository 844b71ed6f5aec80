// A call, as a line says it: its name, and then its parts in the order of its fields.
use crate::reviews::{basis_word, role_word, treatment_word};
use anyhow::Result;
use bp_core::{Rect, Text, TextList};
use bp_matter::{Call, Request};
use bp_test_words::escaped;
use std::alloc::Global;

/// Adds a call behind what is told already.
pub fn add_call(alloc: Global, text: &mut String, call: &Call) -> Result<()> {
    match call {
        Call::SeeDoc { doc } => add_numbers(text, " SeeDoc", &[doc.0]),
        Call::SeePage { doc, page } => add_numbers(text, " SeePage", &[doc.0, page.0]),
        Call::SeeWords { doc, page } => add_numbers(text, " SeeWords", &[doc.0, page.0]),
        Call::DropBox { doc, num } => add_numbers(text, " DropBox", &[doc.0, *num]),
        Call::Confirm { doc } => add_numbers(text, " Confirm", &[doc.0]),
        Call::SendBack { doc } => add_numbers(text, " SendBack", &[doc.0]),
        Call::GetProduction { id } => add_texts(alloc, text, " GetProduction", &[id]),
        Call::SeeStates { from } => add_numbers(text, " SeeStates", &[from.0]),
        Call::SeeValues { doc } => add_numbers(text, " SeeValues", &[doc.0]),
        Call::SeeStaff => add_word(text, "SeeStaff"),
        Call::SeeProductions => add_word(text, "SeeProductions"),
        Call::Find { terms, from, page } => add_search(alloc, text, terms, &[from.0, *page]),
        Call::Freeze { request } => add_request(alloc, text, " Freeze", request),
        Call::Plan { request } => add_request(alloc, text, " Plan", request),
        other => add_other(alloc, text, other),
    }
}

// A call with a text or a word of a review.
fn add_other(alloc: Global, text: &mut String, call: &Call) -> Result<()> {
    match call {
        Call::AddStaff { name, role, digest } => {
            add_texts(alloc, text, " AddStaff", &[name])?;
            add_word(text, role_word(*role))?;
            add_digest(text, digest)
        }
        Call::SetCall {
            doc,
            responsive,
            treatment,
            designation,
        } => {
            add_numbers(text, " SetCall", &[doc.0])?;
            add_word(text, if *responsive { "yes" } else { "no" })?;
            add_texts(alloc, text, treatment_word(*treatment), &[designation])
        }
        Call::PutBox {
            doc,
            num,
            page,
            rect,
            basis,
        } => {
            add_numbers(text, " PutBox", &[doc.0, *num, page.0])?;
            add_rect(text, *rect)?;
            add_word(text, basis_word(*basis))
        }
        Call::HoldField { doc, field, basis } => {
            add_numbers(text, " HoldField", &[doc.0])?;
            add_texts(alloc, text, "", &[field])?;
            add_word(text, basis_word(*basis))
        }
        Call::FreeField { doc, field } => {
            add_numbers(text, " FreeField", &[doc.0])?;
            add_texts(alloc, text, "", &[field])
        }
        Call::PutEntry {
            doc,
            date,
            author,
            recipients,
            description,
        } => {
            add_numbers(text, " PutEntry", &[doc.0])?;
            add_texts(alloc, text, "", &[date, author, recipients, description])
        }
        _ => Ok(()),
    }
}

fn add_search(alloc: Global, text: &mut String, terms: &TextList, part: &[u32]) -> Result<()> {
    add_word(text, "Find")?;
    add_list(alloc, text, terms)?;
    add_numbers(text, "", part)
}

fn add_request(alloc: Global, text: &mut String, name: &str, request: &Request) -> Result<()> {
    add_texts(
        alloc,
        text,
        name,
        &[&request.id, &request.volume, &request.prefix.text],
    )?;
    let width = u32::from(request.prefix.width);
    add_numbers(text, "", &[width, request.from.0, request.to.0])?;
    add_list(alloc, text, &request.fields)
}

fn add_list(alloc: Global, text: &mut String, list: &TextList) -> Result<()> {
    for item in list.as_slice() {
        add_texts(alloc, text, "", &[item])?;
    }
    Ok(())
}

fn add_word(text: &mut String, word: &str) -> Result<()> {
    text.push(' ')?;
    text.push_str(word)?;
    Ok(())
}

fn add_numbers(text: &mut String, name: &str, numbers: &[u32]) -> Result<()> {
    text.push_str(name)?;
    for number in numbers {
        let number = *number;
        write!(text, " {number}")?;
    }
    Ok(())
}

// Texts as `Words::text` reads them: `-` for an empty one.
fn add_texts(alloc: Global, text: &mut String, name: &str, more: &[&Text]) -> Result<()> {
    text.push_str(name)?;
    for item in more {
        text.push(' ')?;
        if item.is_empty() {
            text.push('-')?;
        } else {
            text.push_str(escaped(alloc, item.as_str())?.as_str())?;
        }
    }
    Ok(())
}

fn add_rect(text: &mut String, rect: Rect) -> Result<()> {
    add_numbers(text, "", &[rect.left, rect.top, rect.width, rect.height])
}

fn add_digest(text: &mut String, digest: &[u8; 32]) -> Result<()> {
    text.push(' ')?;
    for byte in digest.iter() {
        let byte = *byte;
        write!(text, "{byte:02x}")?;
    }
    Ok(())
}
