// What is frozen of a demo.
ghost use Rattle.std.specs.Prelude.{◌≡◌, IfOk};
ghost use Rattle.bp_demo.specs.Frozen.{demo_request};

use crate::plain_texts::plain_text;
use bp_bates::Prefix;
use bp_core::{DocNo, ListOf, OutOfMemory};
use bp_matter::Request;
use std::alloc::Global;

/// The request that is frozen of a demo of so many documents: all of them, without fields.
pub fn demo_request(alloc: Global, documents: u32) -> Result<Request, OutOfMemory>
    ensures { IfOk result (λ request. request ≡ demo_request documents) }
{
    let id = plain_text(alloc, "DEMO")?;
    let volume = plain_text(alloc, "DEMO")?;
    let text = plain_text(alloc, "DM-")?;
    Ok(Request {
        id,
        volume,
        prefix: Prefix { text, width: 8 },
        from: DocNo(1),
        to: DocNo(documents),
        fields: ListOf::new(alloc),
    })
}
