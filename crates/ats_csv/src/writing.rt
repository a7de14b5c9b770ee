//! The plain text of records.

ghost use Rattle.std.specs.Prelude.{◌≡◌, ◌++◌, length, map, take, OnOk};
ghost use Rattle.std.specs.List.{join_with_byte};
ghost use Rattle.ats_csv.specs.Plain.{bytes_of, further, record_text};

use itoa::Buffer;
use std::alloc::AllocError;

/// A field of a record that is to be written.
#[derive(Clone, Copy, Debug, PartialEq, Eq)]
pub enum Field<'a> {
    /// These bytes as they stand.
    Text(&'a [u8]),
    /// A number in decimal.
    Number(u128),
}

/// Appends the plain text of a record: its fields as they stand, a comma between each two, and LF.
/// It reads back where the record is plain. What stood in `out` stays in front; after `AllocError`
/// nothing is said of what is behind it.
pub fn push_record(out: &mut Vec<u8>, fields: &[Field]) -> Result<(), AllocError>
    ensures written { OnOk result (out.new.items ≡ out.old.items ++ record_text (map bytes_of fields.now)) }
    ensures front { take (length out.old.items) out.new.items ≡ out.old.items }
{
    push_fields(out, fields)?;
    out.push(b'\n')?;
    Ok(())
}

// Appends fields with a comma between each two.
#[tactic(auto, using(crate::proofs::Plain::joined))]
fn push_fields(out: &mut Vec<u8>, fields: &[Field]) -> Result<(), AllocError>
    ensures written { OnOk result (out.new.items ≡ out.old.items ++ join_with_byte 44 (map bytes_of fields.now)) }
    ensures front { take (length out.old.items) out.new.items ≡ out.old.items }
{
    match fields.split_first() {
        None => Ok(()),
        Some((first, rest)) => {
            push_field(out, first)?;
            push_further(out, rest)?;
            Ok(())
        }
    }
}

// Appends each field with a comma before it.
#[tactic(auto, using(crate::proofs::Plain::further_more))]
fn push_further(out: &mut Vec<u8>, fields: &[Field]) -> Result<(), AllocError>
    ensures written { OnOk result (out.new.items ≡ out.old.items ++ further (map bytes_of fields.now)) }
    ensures front { take (length out.old.items) out.new.items ≡ out.old.items }
{
    for field in fields {
        out.push(b',')?;
        push_field(out, field)?;
    }
    Ok(())
}

// Appends the bytes of a field.
fn push_field(out: &mut Vec<u8>, field: &Field) -> Result<(), AllocError>
    ensures written { OnOk result (out.new.items ≡ out.old.items ++ bytes_of field.now) }
    ensures front { take (length out.old.items) out.new.items ≡ out.old.items }
{
    match field {
        Field::Text(text) => out.extend_from_slice(text)?,
        Field::Number(n) => out.extend_from_slice(Buffer::new().format(*n).as_bytes())?,
    }
    Ok(())
}
