// A volume put into the folder, and the line that is printed of it.
ghost use Rattle.std.specs.Prelude.{◌≡◌, ◌≤◌, ◌++◌, IfOk, IsTrue, OnOk};
ghost use Rattle.bp_bates.specs.Prefixes.{is_good_prefix};
ghost use Rattle.bp_bates.specs.Spans.{largest_of};
ghost use Rattle.bp_freeze.specs.Keeping.{KeepsProduction};
ghost use Rattle.bp_freeze.specs.Log.{label_in};
ghost use Rattle.bp_press.specs.Volume.{volume_of};
ghost use Rattle.bp_cli.specs.Produce.{id_told, labels_told, numbers_told, volume_line};
ghost use Rattle.bp_cli.specs.ProduceSteps.{HasLabel, HasLabels, PutsVolume};

use crate::stops::Stop;
use bp_bates::{Prefix, label_into};
use bp_core::{Bytes, OutOfMemory};
use bp_matter::{Production, Tables};
use bp_outside::Folder;
use bp_press::{OpenGate, Pressed, press};
use std::alloc::Global;
use std::thread::Threads;

// The longest label.
const LABEL: usize = 22;

// The digits of a SHA-256.
const DIGEST_DIGITS: usize = 64;

#[tactic(auto, using(crate::proofs::LabelLemmas::kept_labels))]
/// Puts the volume of a production that the tables keep. The line that is printed of it.
pub fn put_volume<R: Threads + Sync, F: Folder>(
    rt: &R,
    alloc: Global,
    tables: &Tables,
    production: &Production,
    folder: &mut F,
) -> Result<Bytes, Stop>
    requires kept { KeepsProduction tables.now.matter production.now }
    ensures { let volume = volume_of production.now tables.now.matter in
        PutsVolume production.now volume (F.shows folder.old) result (F.shows folder.new) }
{
    tables.know_valid();
    let pressed = match press(rt, alloc, tables, production, folder, &OpenGate) {
        Ok(pressed) => pressed,
        Err(refusal) => return Err(Stop::from(refusal)),
    };
    Ok(volume_line(alloc, production, pressed)?)
}

// `production ID labels FIRST to LAST files N manifest HEX`
fn volume_line(
    alloc: Global,
    production: &Production,
    pressed: Pressed,
) -> Result<Bytes, OutOfMemory>
    requires { HasLabels production.now }
    ensures { IfOk result (λ line. line ≡ volume_line production.now pressed) }
{
    let mut line = Vec::new(alloc);
    add_id(&mut line, production)?;
    add_labels(&mut line, production)?;
    add_numbers(alloc, &mut line, pressed)?;
    Ok(Bytes::from_vec(line))
}

// `production ID`
fn add_id(line: &mut Vec<u8>, production: &Production) -> Result<(), OutOfMemory>
    ensures { OnOk result (line.new.items ≡ line.old.items ++ id_told production.now) }
{
    line.extend_from_slice(b"production ")?;
    line.extend_from_slice(production.request.id.as_str().as_bytes())?;
    Ok(())
}

// ` labels FIRST to LAST`
pub fn add_labels(line: &mut Vec<u8>, production: &Production) -> Result<(), OutOfMemory>
    requires { HasLabels production.now }
    ensures { OnOk result (line.new.items ≡ line.old.items ++ labels_told production.now) }
{
    let prefix = &production.request.prefix;
    line.extend_from_slice(b" labels ")?;
    add_label(line, prefix, production.span.first)?;
    line.extend_from_slice(b" to ")?;
    add_label(line, prefix, production.span.last)?;
    Ok(())
}

// The label of a number.
fn add_label(line: &mut Vec<u8>, prefix: &Prefix, number: u64) -> Result<(), OutOfMemory>
    requires good { IsTrue (is_good_prefix prefix.now.text prefix.now.width) }
    requires number { HasLabel prefix.now.width number }
    ensures { OnOk result (line.new.items ≡ line.old.items ++ label_in prefix.now number) }
{
    let mut into = [0; LABEL];
    let length = label_into(prefix, number, &mut into);
    line.extend_from_slice(&into[..length])?;
    Ok(())
}

// ` files N manifest HEX`, and the end of the line
pub fn add_numbers(alloc: Global, line: &mut Vec<u8>, pressed: Pressed) -> Result<(), OutOfMemory>
    ensures { OnOk result (line.new.items ≡ line.old.items ++ numbers_told pressed) }
{
    let count = pressed.files.to_string(alloc)?;
    let mut digits = [0; DIGEST_DIGITS];
    if hex::encode_to_slice(pressed.manifest, &mut digits).is_err() {
        unreachable!();
    }
    line.extend_from_slice(b" files ")?;
    line.extend_from_slice(count.as_bytes())?;
    line.extend_from_slice(b" manifest ")?;
    line.extend_from_slice(&digits)?;
    line.extend_from_slice(b"\n")?;
    Ok(())
}
