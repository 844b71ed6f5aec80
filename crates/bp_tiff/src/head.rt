// What stands in a page file before its strip (TIFF 6.0, section 2).
ghost use Rattle.std.specs.Prelude.{◌≡◌, ◌++◌, ◌<◌, ◌^◌, length, OnOk};
ghost use Rattle.std.specs.List.{flat_map};
ghost use Rattle.bp_tiff.specs.Entries.{one_value, value_bytes, entry_bytes, directory, entries};
ghost use Rattle.bp_tiff.specs.Tiff.{header, rational, head_of};

use crate::entries::{Entry, Value, g4_entries, plain_entries};
use crate::fields::Fields;
use crate::form::Form;
use crate::places::{DIRECTORY_AT, MAGIC};
use crate::tags::{LONG, RATIONAL, SHORT};
use bp_core::OutOfMemory;
use bp_rows::Res;

/// Appends the head of a file of these fields, whose strip has so many bytes.
pub fn put_head(
    out: &mut Vec<u8>,
    form: Form,
    fields: &Fields,
    strip_bytes: u32,
) -> Result<(), OutOfMemory>
    ensures { OnOk result (out.new.items ≡ out.old.items ++ head_of form fields.now strip_bytes) }
{
    put_header(out)?;
    put_fields(out, form, fields, strip_bytes)?;
    put_rational(out, fields.xres)?;
    put_rational(out, fields.yres)
}

fn put_header(out: &mut Vec<u8>) -> Result<(), OutOfMemory>
    ensures { OnOk result (out.new.items ≡ out.old.items ++ header) }
{
    out.extend_from_slice(b"II")?;
    out.extend_from_slice(&MAGIC.to_le_bytes())?;
    out.extend_from_slice(&DIRECTORY_AT.to_le_bytes())?;
    Ok(())
}

// The directory of the fields.
fn put_fields(
    out: &mut Vec<u8>,
    form: Form,
    fields: &Fields,
    strip_bytes: u32,
) -> Result<(), OutOfMemory>
    ensures { OnOk result (
        out.new.items ≡ out.old.items ++ directory (entries form fields.now strip_bytes)) }
{
    match form {
        Form::Plain => put_directory(out, &plain_entries(fields, strip_bytes)),
        Form::G4 => put_directory(out, &g4_entries(fields, strip_bytes)),
    }
}

fn put_directory(out: &mut Vec<u8>, entries: &[Entry]) -> Result<(), OutOfMemory>
    requires { length entries.now < 2 ^ 16 }
    ensures { OnOk result (out.new.items ≡ out.old.items ++ directory entries.now) }
{
    out.extend_from_slice(&(entries.len() as u16).to_le_bytes())?;
    put_entries(out, entries)?;
    out.extend_from_slice(&0u32.to_le_bytes())?;
    Ok(())
}

fn put_entries(out: &mut Vec<u8>, entries: &[Entry]) -> Result<(), OutOfMemory>
    ensures { OnOk result (out.new.items ≡ out.old.items ++ flat_map entry_bytes entries.now) }
{
    for entry in entries {
        out.extend_from_slice(&entry.tag.to_le_bytes())?;
        put_value(out, entry.value)?;
    }
    Ok(())
}

// Type, count and value of an entry.
fn put_value(out: &mut Vec<u8>, value: Value) -> Result<(), OutOfMemory>
    ensures { OnOk result (out.new.items ≡ out.old.items ++ value_bytes value) }
{
    match value {
        Value::Short(n) => {
            put_one(out, SHORT)?;
            out.extend_from_slice(&n.to_le_bytes())?;
            out.extend_from_slice(&[0, 0])?;
        }
        Value::Long(n) => {
            put_one(out, LONG)?;
            out.extend_from_slice(&n.to_le_bytes())?;
        }
        Value::RationalAt(at) => {
            put_one(out, RATIONAL)?;
            out.extend_from_slice(&at.to_le_bytes())?;
        }
    }
    Ok(())
}

// A type, and a count of one value.
fn put_one(out: &mut Vec<u8>, kind: u16) -> Result<(), OutOfMemory>
    ensures { OnOk result (out.new.items ≡ out.old.items ++ one_value kind) }
{
    out.extend_from_slice(&kind.to_le_bytes())?;
    out.extend_from_slice(&1u32.to_le_bytes())?;
    Ok(())
}

fn put_rational(out: &mut Vec<u8>, res: Res) -> Result<(), OutOfMemory>
    ensures { OnOk result (out.new.items ≡ out.old.items ++ rational res) }
{
    out.extend_from_slice(&res.num.to_le_bytes())?;
    out.extend_from_slice(&res.den.to_le_bytes())?;
    Ok(())
}
