// The first and the last label number of each family of a production.
ghost use Rattle.std.specs.Prelude.{◌≡◌, ◌≤◌, ◌<◌, ◌+◌, ◌==◌, ◌^◌, ℕ, All, IfOk, slice_index, vec_len};
ghost use Rattle.std.specs.List.{filter};
ghost use Rattle.bp_matter.specs.declared.rows.Item.{Item};
ghost use Rattle.bp_freeze.specs.Selecting.{first_of_items, last_of_items};
ghost use Rattle.bp_press.specs.Needs.{IsInFamily};

use bp_core::OutOfMemory;
use bp_matter::Item;
use std::alloc::Global;

// A number that no parent of an item is above.
pub(crate) fn last_parent(items: &[Item]) -> usize
    ensures few { result < 2 ^ 32 }
    ensures families { All (IsInFamily result) items.now }
{
    let mut last = 0;
    for item in items {
        last = larger(last, item.parent.0);
    }
    last as usize
}

fn larger(one: u32, other: u32) -> u32
    ensures one { one ≤ result }
    ensures other { other ≤ result }
{
    if one < other { other } else { one }
}

// The first number of each family of items, by the number of its first document; 0 where there is
// none.
pub(crate) fn first_numbers(
    alloc: Global,
    documents: usize,
    items: &[Item],
) -> Result<Vec<u64>, OutOfMemory>
    requires few { documents < 2 ^ 32 }
    requires families { All (IsInFamily documents) items.now }
    ensures many { IfOk result (λ numbers. vec_len numbers ≡ documents + 1) }
    ensures tell { IfOk result (λ numbers. (p : ℕ) → p ≤ documents → slice_index numbers.items p
        ≡ first_of_items (filter (λ item. item.parent.0 == p) items.now)) }
{
    let mut numbers = vec![in alloc; 0u64; documents + 1]?;
    let mut rest = items;
    while let Some((item, before)) = rest.split_last() {
        numbers[item.parent.0 as usize] = item.span.first;
        rest = before;
    }
    Ok(numbers)
}

// The last number of each family of items, in the same way.
pub(crate) fn last_numbers(
    alloc: Global,
    documents: usize,
    items: &[Item],
) -> Result<Vec<u64>, OutOfMemory>
    requires few { documents < 2 ^ 32 }
    requires families { All (IsInFamily documents) items.now }
    ensures many { IfOk result (λ numbers. vec_len numbers ≡ documents + 1) }
    ensures tell { IfOk result (λ numbers. (p : ℕ) → p ≤ documents → slice_index numbers.items p
        ≡ last_of_items (filter (λ item. item.parent.0 == p) items.now)) }
{
    let mut numbers = vec![in alloc; 0u64; documents + 1]?;
    let mut rest = items;
    while let Some((item, others)) = rest.split_first() {
        numbers[item.parent.0 as usize] = item.span.last;
        rest = others;
    }
    Ok(numbers)
}
