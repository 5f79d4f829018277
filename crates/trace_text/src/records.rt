//! The records of some bytes, one after the other.
use csv::{ByteRecord, Reader, ReaderBuilder};
use std::alloc::Global;
use std::marker::Model;
use text_lines::NoMemory;

/// A reader of records, which contracts see as the records that are left.
#[derive(Drop)]
pub struct Records<'a> {
    reader: Reader<&'a [u8]>,
}

impl<'a> Model for Records<'a> {
    ghost use Rattle.std.specs.Prelude.{List, ℕ};
    ghost use Rattle.trace_text.specs.Left.{records_left, ReadsPlainly};

    ghost Value = { List (List (List ℕ)) };

    ghost view = { records_left };

    ghost invariant = { λ records. ReadsPlainly records.reader };
}

impl<'a> Records<'a> {
    ghost use Rattle.std.specs.Prelude.{◌≡◌, ◌∷◌, [], Ok, true, false};
    ghost use Rattle.csv.specs.Records.{fields_of};
    ghost use Rattle.trace_text.specs.Records.{records_of};

    /// The records of some bytes.
    pub fn new(alloc: Global, bytes: &'a [u8]) -> Records<'a>
        ensures { result ≡ records_of bytes.entry.now }
    {
        let reader = ReaderBuilder::new()
            .has_headers(false)
            .flexible(true)
            .from_reader(alloc, bytes);
        Records { reader }
    }

    /// Reads the next record into `row`, and says whether there was one.
    pub fn read(&mut self, row: &mut ByteRecord) -> Result<bool, NoMemory>
        ensures some { result ≡ Ok true → self.old ≡ fields_of row.new ∷ self.new }
        ensures none { result ≡ Ok false → self.old ≡ [] }
    {
        match self.reader.read_byte_record(row) {
            Ok(found) => Ok(found),
            Err(_) => Err(NoMemory),
        }
    }
}
