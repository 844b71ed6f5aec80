// The productions of the matter, as they are told.
ghost use Rattle.std.specs.Prelude.{◌≡◌, ◌<◌, ◌^◌, IfOk, length};
ghost use Rattle.bp_looks.specs.Productions.{production_view, productions_of};

use crate::copies::copy_text;
use bp_core::{ListOf, OutOfMemory};
use bp_matter::{Production, ProductionView, ProductionViewList, Tables};
use std::alloc::Global;

/// Each kept production, in order.
pub fn see_productions(alloc: Global, tables: &Tables) -> Result<ProductionViewList, OutOfMemory>
    ensures { IfOk result (λ views. views ≡ productions_of tables.now.matter) }
{
    let rows = tables.productions.as_slice();
    let mut views = Vec::new(alloc);
    for i in 0..rows.len() {
        views.push(production_view(&rows[i].production)?)?;
    }
    Ok(ListOf::from_vec(views))
}

fn production_view(production: &Production) -> Result<ProductionView, OutOfMemory>
    requires { length production.now.items < 2 ^ 32 }
    ensures { IfOk result (λ view. view ≡ production_view production.now) }
{
    let request = &production.request;
    Ok(ProductionView {
        id: copy_text(&request.id)?,
        volume: copy_text(&request.volume)?,
        prefix: copy_text(&request.prefix.text)?,
        width: request.prefix.width,
        span: production.span,
        items: production.items.len() as u32,
        from: request.from,
        to: request.to,
    })
}
