//! The records of a text, one after another.

ghost use Rattle.std.specs.Prelude.{◌≡◌, IfOk};
ghost use Rattle.csv.specs.Records.{fields_of};
ghost use Rattle.vp_csv.specs.Records.{records_in};
ghost use Rattle.vp_csv.specs.Left.{left_of, Keeps, Steps};

use csv::{ByteRecord, Reader, ReaderBuilder};
use std::alloc::{AllocError, Global};
use std::marker::Model;

/// The records of a text that are left.
#[derive(Drop)]
pub(crate) struct Records<'a> {
    reader: Reader<&'a [u8]>,
}

impl<'a> Model for Records<'a> {
    ghost use Rattle.std.specs.Prelude.{List};
    ghost use Rattle.vp_csv.specs.Left.{left_of, Keeps};
    ghost use Rattle.vp_csv.specs.Records.{Record};

    ghost Value = { List Record };

    ghost view = { λ r. left_of r.reader };

    ghost invariant = { λ r. Keeps r.reader };
}

impl<'a> Records<'a> {
    /// All records of a text.
    pub(crate) fn new(alloc: Global, bytes: &'a [u8]) -> Records<'a>
        ensures { result ≡ records_in bytes.now }
    {
        Records {
            reader: ReaderBuilder::new()
                .has_headers(false)
                .flexible(true)
                .from_reader(alloc, bytes),
        }
    }

    /// Reads the next record into a row, and tells whether there was one.
    pub(crate) fn next(&mut self, row: &mut ByteRecord) -> Result<bool, AllocError>
        ensures { IfOk result (λ found. Steps self.old found (fields_of row.new) self.new) }
    {
        read_row(&mut self.reader, row)
    }
}

/// Errors other than want of memory do not come of bytes in memory, and are told as that.
fn read_row(reader: &mut Reader<&[u8]>, row: &mut ByteRecord) -> Result<bool, AllocError>
    requires { Keeps reader.old }
    ensures keeps { Keeps reader.new }
    ensures steps { IfOk result
        (λ found. Steps (left_of reader.old) found (fields_of row.new) (left_of reader.new)) }
{
    let Ok(found) = reader.read_byte_record(row) else {
        return Err(AllocError);
    };
    Ok(found)
}
