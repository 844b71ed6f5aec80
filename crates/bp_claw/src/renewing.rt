// The production after a notice.
ghost use Rattle.std.specs.Prelude.{◌≡◌, IfOk, map};
ghost use Rattle.std.specs.Option.{option_copied};
ghost use Rattle.bp_claw.specs.Claims.{claim_for};
ghost use Rattle.bp_claw.specs.Replacement.{claimed, replaced, replaced_item};

use crate::notices::{Claim, Notice};
use bp_core::{DocNo, ListOf, OutOfMemory, Text, Treatment};
use bp_matter::{Item, ItemList, Production, Request};
use std::alloc::Global;

// The production after a notice, with another name of its volume.
pub(crate) fn replaced(
    alloc: Global,
    production: &Production,
    notice: &Notice,
    volume: &Text,
) -> Result<Production, OutOfMemory>
    ensures { IfOk result (λ f. f ≡ replaced production.now notice.now volume.now) }
{
    let copy = production.copy(alloc)?;
    Ok(Production {
        request: renamed(copy.request, volume)?,
        items: replaced_items(alloc, notice.as_slice(), copy.items)?,
        span: copy.span,
        ink: copy.ink,
    })
}

// The request with another name of its volume.
fn renamed(request: Request, volume: &Text) -> Result<Request, OutOfMemory>
    ensures { IfOk result (λ q. q ≡ record request { volume = volume.now }) }
{
    Ok(Request {
        id: request.id,
        volume: volume.clone()?,
        prefix: request.prefix,
        from: request.from,
        to: request.to,
        fields: request.fields,
    })
}

// The items after a notice.
fn replaced_items(alloc: Global, notice: &[Claim], items: ItemList) -> Result<ItemList, OutOfMemory>
    ensures { IfOk result (λ changed. changed ≡ map (replaced_item notice.now) items) }
{
    let mut changed = Vec::new(alloc);
    for item in items.into_vec() {
        changed.push(replaced_item(alloc, notice, item)?)?;
    }
    Ok(ListOf::from_vec(changed))
}

// An item after a notice.
fn replaced_item(alloc: Global, notice: &[Claim], item: Item) -> Result<Item, OutOfMemory>
    ensures { IfOk result (λ changed. changed ≡ replaced_item notice.now item) }
{
    match claim_for(notice, item.doc) {
        None => Ok(item),
        Some(claim) => claimed(alloc, claim, item),
    }
}

// The first claim that names the document.
fn claim_for(notice: &[Claim], doc: DocNo) -> Option<&Claim>
    ensures { option_copied result ≡ claim_for notice.now doc.0 }
{
    notice.iter().find(|claim| claim.doc.0 == doc.0)
}

// An item that a claim names.
fn claimed(alloc: Global, claim: &Claim, item: Item) -> Result<Item, OutOfMemory>
    ensures { IfOk result (λ changed. changed ≡ claimed claim.now item) }
{
    Ok(Item {
        doc: item.doc,
        parent: item.parent,
        treatment: Treatment::Withhold(claim.basis),
        boxes: ListOf::new(alloc),
        held: ListOf::new(alloc),
        entry: Some(claim.entry.copy()?),
        designation: item.designation,
        span: item.span,
    })
}
