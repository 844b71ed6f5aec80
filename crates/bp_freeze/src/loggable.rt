// Whether a production can be logged.
ghost use Rattle.std.specs.Prelude.{◌≡◌, ◌&&◌, IsTrue};
ghost use Rattle.std.specs.List.{list_all};
ghost use Rattle.bp_bates.specs.Spans.{largest_of};
ghost use Rattle.bp_matter.specs.Texts.{is_plain_character, is_text, is_text_character};
ghost use Rattle.bp_matter.specs.ValidEntries.{entry_fits};
ghost use Rattle.bp_matter.specs.ValidItems.{optional_fits};
ghost use Rattle.bp_freeze.specs.Log.{CanBeLogged, entry_stands, span_fits};

use crate::log::is_logged;
use bp_bates::{good_prefix, largest};
use bp_matter::{Item, Production, optional_fits};

/// Whether the production has a good prefix, spans of numbers up to the largest of its width, an
/// entry in each item that the log lists, and entries whose texts a call accepts.
pub fn can_be_logged(production: &Production) -> bool
    ensures fact { IsTrue result → CanBeLogged production.now }
    ensures back { CanBeLogged production.now → IsTrue result }
{
    let prefix = &production.request.prefix;
    if !good_prefix(&prefix.text, prefix.width) {
        return false;
    }
    let items = production.items.as_slice();
    spans_fit(largest(prefix.width), prefix.width, items) && entries_stand(items)
}

fn spans_fit(last: u64, width: u8, items: &[Item]) -> bool
    requires { last ≡ largest_of width }
    ensures { result ≡ list_all (span_fits width) items.now }
{
    let _width = width;
    items.iter().all(|item| span_fits(last, width, item))
}

fn span_fits(last: u64, width: u8, item: &Item) -> bool
    requires { last ≡ largest_of width }
    ensures { result ≡ span_fits width item.now }
{
    let _width = width;
    1 <= item.span.first && item.span.first <= last && 1 <= item.span.last && item.span.last <= last
}

fn entries_stand(items: &[Item]) -> bool
    ensures { result ≡ list_all entry_stands items.now }
{
    items.iter().all(|item| entry_stands(item))
}

fn entry_stands(item: &Item) -> bool
    ensures { result ≡ entry_stands item.now }
{
    (!is_logged(item) || item.entry.is_some()) && optional_fits(&item.entry)
}
