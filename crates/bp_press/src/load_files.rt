// The load files of a volume: the DAT with a line an item, and the OPT with a line an image.
ghost use Rattle.std.specs.Prelude.{◌≡◌, ◌<◌, ◌+◌, ◌-◌, ◌++◌, ◌∷◌, [], All, IfOk, IsTrue, OnOk, length, map};
ghost use Rattle.std.specs.Char.{is_ascii};
ghost use Rattle.std.specs.List.{flat_map, list_all};
ghost use Rattle.bp_freeze.specs.Selecting.{first_of_items, last_of_items};
ghost use Rattle.bp_matter.specs.Texts.{columns};
ghost use Rattle.bp_press.specs.LoadFiles.{dat_bytes, dat_row, family_of, opt_bytes, opt_lines};
ghost use Rattle.bp_press.specs.Needs.{AreFamilyNumbers, CanBePressed, IsInFamily};
ghost use Rattle.bp_press.specs.Pressing.{CanAllBePlaced};
ghost use Rattle.bp_press.specs.Volume.{placed_items};

use crate::families::{first_numbers, last_numbers, last_parent};
use crate::load_rows::{add_opt_lines, dat_row};
use crate::shown::Shows;
use crate::volume_files::image_count;
use bp_bates::Span;
use bp_core::{Bytes, ListOf, OutOfMemory, Text, TextList};
use bp_load::{Dat, OptList, TextTable, write_dat, write_opt};
use bp_matter::{Item, Production, Request};
use std::alloc::Global;

// ---- the OPT

// The lines of all items.
fn opt_list<P: Shows>(
    alloc: Global,
    shown: &P,
    production: &Production,
) -> Result<OptList, OutOfMemory>
    requires same { P.production shown.now ≡ production.now }
    requires placed { CanAllBePlaced production.now (P.matter shown.now) 0 production.now.items }
    ensures { let f = production.now in
        IfOk result (λ lines.
        lines ≡ flat_map (opt_lines f.request) (placed_items f (P.matter shown.now))) }
{
    let mut lines = Vec::new(alloc);
    let mut rest = production.items.as_slice();
    let mut place = 0;
    while let Some((item, others)) = rest.split_first() {
        let count = add_opt_lines(alloc, shown, production, item, place, &mut lines)?;
        place += u64::from(count);
        rest = others;
    }
    Ok(ListOf::from_vec(lines))
}

// The bytes of the OPT.
pub(crate) fn opt_bytes<P: Shows>(
    alloc: Global,
    shown: &P,
    production: &Production,
) -> Result<Bytes, OutOfMemory>
    requires same { P.production shown.now ≡ production.now }
    requires pressed { CanBePressed production.now (P.matter shown.now) }
    ensures { let f = production.now in
        IfOk result (λ bytes. bytes ≡ opt_bytes f.request (placed_items f (P.matter shown.now))) }
{
    write_opt(alloc, &opt_list(alloc, shown, production)?)
}

// ---- the DAT

// Adds a name in ASCII.
fn add_name(alloc: Global, name: &str, names: &mut Vec<Text>) -> Result<(), OutOfMemory>
    requires { IsTrue (list_all is_ascii name.now) }
    ensures { OnOk result (names.new.items ≡ names.old.items ++ name.now ∷ []) }
{
    names.push(Text::from_string(String::from_str(alloc, name)?))?;
    Ok(())
}

// The names of the columns that each DAT has.
fn own_columns(alloc: Global) -> Result<Vec<Text>, OutOfMemory>
    ensures { IfOk result (λ names. names.items ≡ columns) }
{
    let mut names = Vec::new(alloc);
    add_name(alloc, "BEGDOC", &mut names)?;
    add_name(alloc, "ENDDOC", &mut names)?;
    add_name(alloc, "BEGATTACH", &mut names)?;
    add_name(alloc, "ENDATTACH", &mut names)?;
    add_name(alloc, "PAGECOUNT", &mut names)?;
    add_name(alloc, "DESIGNATION", &mut names)?;
    add_name(alloc, "WITHHELD", &mut names)?;
    add_name(alloc, "TEXTPATH", &mut names)?;
    Ok(names)
}

// The names of all columns.
fn columns(alloc: Global, request: &Request) -> Result<TextList, OutOfMemory>
    ensures { IfOk result (λ names. names ≡ columns ++ request.now.fields) }
{
    let mut names = own_columns(alloc)?;
    let mut rest = request.fields.as_slice();
    while let Some((name, others)) = rest.split_first() {
        names.push(name.clone()?)?;
        rest = others;
    }
    Ok(ListOf::from_vec(names))
}

// The first and the last number of the family of an item.
fn family_of(production: &Production, item: &Item, firsts: &[u64], lasts: &[u64]) -> Span
    requires numbers { AreFamilyNumbers production.now (length firsts.now - 1)
        firsts.now lasts.now }
    requires family { IsInFamily (length firsts.now - 1) item.now }
    ensures first { result.first ≡ first_of_items (family_of production.now item.now) }
    ensures last { result.last ≡ last_of_items (family_of production.now item.now) }
{
    let _production = production;
    let parent = item.parent.0 as usize;
    Span {
        first: firsts[parent],
        last: lasts[parent],
    }
}

// The rows of all items, with the first and the last number of each family.
fn dat_rows<P: Shows>(
    alloc: Global,
    shown: &P,
    production: &Production,
    firsts: &[u64],
    lasts: &[u64],
) -> Result<TextTable, OutOfMemory>
    requires same { P.production shown.now ≡ production.now }
    requires pressed { CanBePressed production.now (P.matter shown.now) }
    requires numbers { AreFamilyNumbers production.now (length firsts.now - 1)
        firsts.now lasts.now }
    requires families { All (IsInFamily (length firsts.now - 1)) production.now.items }
    ensures { let f = production.now in
        IfOk result (λ rows. rows ≡ map (dat_row f) (placed_items f (P.matter shown.now))) }
{
    let mut rows = Vec::new(alloc);
    let mut rest = production.items.as_slice();
    let mut place = 0;
    while let Some((item, others)) = rest.split_first() {
        let family = family_of(production, item, firsts, lasts);
        rows.push(dat_row(alloc, shown, production, item, place, family)?)?;
        place += u64::from(image_count(shown, production, item));
        rest = others;
    }
    Ok(ListOf::from_vec(rows))
}

// The bytes of the DAT.
pub(crate) fn dat_bytes<P: Shows>(
    alloc: Global,
    shown: &P,
    production: &Production,
) -> Result<Bytes, OutOfMemory>
    requires same { P.production shown.now ≡ production.now }
    requires pressed { CanBePressed production.now (P.matter shown.now) }
    ensures { let f = production.now in
        IfOk result (λ bytes. bytes ≡ dat_bytes f (placed_items f (P.matter shown.now))) }
{
    let items = production.items.as_slice();
    let documents = last_parent(items);
    let firsts = first_numbers(alloc, documents, items)?;
    let lasts = last_numbers(alloc, documents, items)?;
    let rows = dat_rows(
        alloc,
        shown,
        production,
        firsts.as_slice(),
        lasts.as_slice(),
    )?;
    let names = columns(alloc, &production.request)?;
    write_dat(alloc, &Dat::new(names, rows))
}
