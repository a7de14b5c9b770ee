//! The records of a file, one after the other.

ghost use Rattle.std.specs.Prelude.{◌≡◌, ◌+◌, ◌<◌, ◌≤◌, ◌↔◌, [], None, true, false, length, map, IsTrue, IsErr, IfOk};
ghost use Rattle.std.specs.Prelude.{OnErr, OnOk, MatchBool};
ghost use Rattle.ats_csv.specs.Reading.{Takes, field_of, records_of, same_fields};
ghost use Rattle.ats_csv.specs.Inside.{Compares, ReadsOnward, ReadsRecord, records_left};
ghost use Rattle.csv.specs.Records.{fields_of};

use csv::{ByteRecord, Reader, ReaderBuilder};
use std::alloc::{AllocError, Global};
use std::marker::Model;

/// What `Records::advance` found.
#[derive(Clone, Copy, Debug, PartialEq, Eq)]
pub enum Taken {
    /// A record with as many fields as the first one, or the first one.
    Record,
    /// A record with another number of fields than the first one.
    OtherWidth,
    /// No record is left.
    End,
}

// Whether there may be more records: there may, there are none, or memory ran out.
#[derive(Clone, Copy)]
enum Stage {
    Going,
    Ended,
    Failed,
}

/// The records of a CSV file in memory, taken one at a time. Contracts see it as the record `Progress`.
///
/// They are read by the default settings of `csv`, without a header treated apart: fields between
/// commas, records that end at LF, CR LF or a lone CR, quotation marks around a field that has one
/// of these, no record for a blank line, and a byte order mark at the start passed over. A last
/// record needs no end, and nothing but memory stops a reading.
#[derive(Drop)]
pub struct Records<'a> {
    reader: Reader<&'a [u8]>,
    row: ByteRecord,
    width: Option<usize>,
    stage: Stage,
}

impl<'a> Model for Records<'a> {
    ghost use Rattle.csv.specs.Records.{fields_of};
    ghost use Rattle.ats_csv.specs.Reading.{Progress};
    ghost use Rattle.ats_csv.specs.Inside.{KeepsReading, has_failed_at, left_at};

    ghost Value = { Progress };

    ghost view = { λ r. record {
      left = left_at r.stage r.reader;
      width = r.width;
      fields = fields_of r.row;
      failed = has_failed_at r.stage;
    } };

    ghost invariant = { λ r. KeepsReading r.stage r.reader };
}

impl<'a> Records<'a> {
    /// All records of these bytes, before the first is taken. It takes no memory yet.
    #[tactic(auto, using(crate::proofs::Next::opened, crate::proofs::Next::opened_few))]
    pub fn open(alloc: Global, bytes: &'a [u8]) -> Self
        ensures left { result.left ≡ records_of bytes.now }
        ensures few { length result.left ≤ length bytes.now + 1 }
        ensures width { result.width ≡ None }
        ensures fields { result.fields ≡ [] }
        ensures failed { result.failed ≡ false }
    {
        // Widths are compared here: of a record that csv refuses for its width it promises neither
        // the fields nor what is left behind it.
        let reader = ReaderBuilder::new()
            .has_headers(false)
            .flexible(true)
            .from_reader(alloc, bytes);
        Records {
            reader,
            row: ByteRecord::new(alloc),
            width: None,
            stage: Stage::Going,
        }
    }

    /// Takes the next record, and says whether it is as wide as the first one; or tells that none
    /// is left. After `AllocError` each further call answers `AllocError`.
    pub fn advance(&mut self) -> Result<Taken, AllocError>
        ensures taken { IfOk result (λ taken. Takes taken self.old self.new) }
        ensures failed { OnErr result (self.new.failed ≡ true) }
        ensures goes { OnOk result (self.new.failed ≡ false) }
        ensures fails { self.old.failed ≡ true → IsErr result }
    {
        match self.stage {
            Stage::Failed => Err(AllocError),
            Stage::Ended => {
                self.row.clear();
                Ok(Taken::End)
            }
            Stage::Going => match read(&mut self.reader, &mut self.row) {
                Ok(true) => Ok(compared(&mut self.width, self.row.len())),
                Ok(false) => {
                    self.row.clear();
                    self.stage = Stage::Ended;
                    Ok(Taken::End)
                }
                Err(e) => {
                    self.stage = Stage::Failed;
                    Err(e)
                }
            },
        }
    }

    /// The field at this place, counted from 0, of the record that was taken last.
    pub fn field(&self, place: usize) -> &[u8]
        requires { place < length self.now.fields }
        ensures { result.now ≡ field_of self.now.fields place }
    {
        field_at(&self.row, place)
    }

    /// Whether the record that was taken last has exactly these fields, as a header is to have.
    pub fn has_fields(&self, fields: &[&[u8]]) -> bool
        ensures same { IsTrue result ↔ (self.now.fields ≡ map (λ f. f.now) fields.now) }
        ensures test { result ≡ same_fields self.now.fields (map (λ f. f.now) fields.now) }
    {
        is_row(&self.row, fields)
    }
}

// Takes the next record of a reader, and says whether there was one.
#[tactic(auto, using(crate::proofs::Next::read_found))]
fn read(reader: &mut Reader<&[u8]>, row: &mut ByteRecord) -> Result<bool, AllocError>
    requires { ReadsOnward reader.old }
    ensures { IfOk result (λ found.
        MatchBool found (ReadsRecord reader.old reader.new (fields_of row.new)) (records_left reader.old ≡ [])) }
{
    match reader.read_byte_record(row) {
        Ok(found) => Ok(found),
        Err(_) => Err(AllocError),
    }
}

// Compares a record's number of fields with that of the first one, or keeps it as the first one's.
fn compared(width: &mut Option<usize>, count: usize) -> Taken
    ensures { Compares result width.old width.new count }
{
    match *width {
        None => {
            *width = Some(count);
            Taken::Record
        }
        Some(first) if first == count => Taken::Record,
        Some(_) => Taken::OtherWidth,
    }
}

// The field at this place of a record.
#[tactic(auto, using(crate::proofs::Fields::field_at_is))]
fn field_at(row: &ByteRecord, place: usize) -> &[u8]
    requires { place < length (fields_of row.now) }
    ensures { result.now ≡ field_of (fields_of row.now) place }
{
    row.get(place).unwrap_or(&[])
}

// Whether the field at this place of a record is this one.
fn is_field(row: &ByteRecord, place: usize, field: &[u8]) -> bool
    requires { place < length (fields_of row.now) }
    ensures { IsTrue result ↔ (field_of (fields_of row.now) place ≡ field.now) }
{
    field_at(row, place) == field
}

// Whether a record has exactly these fields.
#[tactic(auto, using(crate::proofs::Fields::same_more, crate::proofs::Fields::differs))]
fn is_row(row: &ByteRecord, fields: &[&[u8]]) -> bool
    ensures { IsTrue result ↔ (fields_of row.now ≡ map (λ f. f.now) fields.now) }
{
    if row.len() != fields.len() {
        return false;
    }
    for (i, field) in fields.iter().enumerate() {
        if !is_field(row, i, field) {
            return false;
        }
    }
    true
}
