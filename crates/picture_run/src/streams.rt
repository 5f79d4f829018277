//! Reading sources whole, and writing a text or the line of how a run ended.
ghost use Rattle.std.specs.Prelude.{◌≡◌, ◌≤◌, ◌⊎◌};
ghost use Rattle.edge_io.specs.Causes.{Rose};
ghost use Rattle.edge_io.specs.Whole.{AppendsFront};
ghost use Rattle.picture_run.specs.declared.ending.Ending.{Ending};
ghost use Rattle.picture_run.specs.Ended.{error_line, status_of};
ghost use Rattle.picture_run.specs.Streams.{Writes, reading, writing};
ghost use Rattle.picture_run.specs.Telling.{Finishes, HasRead};

use crate::ending::{Ending, Refusal};
use edge_io::{ReadFault, Sink, Source, WriteFault, read_all, write_all};
use std::alloc::Global;

/// The bytes of a source, of which no more than a limit are read.
pub fn read_source<S: Source>(
    alloc: Global,
    source: &mut S,
    limit: usize,
    long: Refusal,
) -> Result<Vec<u8>, Ending>
    ensures read { HasRead limit (reading (S.left source.old) (S.left source.new) (S.faults source.old) (S.faults source.new)) long result }
    ensures later { S.faults source.old ≤ S.faults source.new }
{
    match read_all(alloc, source, limit) {
        Ok(bytes) => Ok(bytes),
        Err(ReadFault::Failed) => Err(Ending::ReadFailed),
        Err(ReadFault::TooLong { limit: _ }) => Err(Ending::Refused(long)),
        Err(ReadFault::NoMemory) => Err(Ending::NoMemory),
    }
}

/// Writes what was drawn, or the line of how the run ended without it.
pub fn finish<K: Sink, E: Sink>(out: &mut K, err: &mut E, drawn: Result<Vec<u8>, Ending>) -> u8
    ensures ends { (ending : Ending) × (status_of ending ≡ result)
        × Finishes drawn (writing (K.held out.old) (K.held out.new) (K.faults out.old) (K.faults out.new) (K.empty_writes out.old) (K.empty_writes out.new)) ending
        × AppendsFront (E.held err.old) (E.held err.new) (error_line ending) (Rose (E.faults err.old) (E.faults err.new) ⊎ Rose (E.empty_writes err.old) (E.empty_writes err.new)) }
    ensures quiet { result ≡ 0 → err.new ≡ err.old }
    ensures later_written { (K.faults out.old ≤ K.faults out.new) × (K.empty_writes out.old ≤ K.empty_writes out.new) }
    ensures later_told { (E.faults err.old ≤ E.faults err.new) × (E.empty_writes err.old ≤ E.empty_writes err.new) }
{
    match drawn {
        Ok(text) => {
            let ending = write_text(out, &text);
            tell(err, ending);
            ending.status()
        }
        Err(ending) => {
            tell(err, ending);
            ending.status()
        }
    }
}

// Writes a text.
fn write_text<K: Sink>(out: &mut K, text: &[u8]) -> Ending
    ensures written { Writes (writing (K.held out.old) (K.held out.new) (K.faults out.old) (K.faults out.new) (K.empty_writes out.old) (K.empty_writes out.new)) text.now result }
    ensures later { (K.faults out.old ≤ K.faults out.new) × (K.empty_writes out.old ≤ K.empty_writes out.new) }
{
    match write_all(out, text) {
        Ok(()) => Ending::Done,
        Err(WriteFault::Failed) => Ending::WriteFailed,
        Err(WriteFault::Stuck) => Ending::WriteStuck,
    }
}

/// Writes the line of an ending, as far as the sink takes it.
pub fn tell<E: Sink>(err: &mut E, ending: Ending)
    ensures line { AppendsFront (E.held err.old) (E.held err.new) (error_line ending)
        (Rose (E.faults err.old) (E.faults err.new) ⊎ Rose (E.empty_writes err.old) (E.empty_writes err.new)) }
    ensures quiet { ending ≡ Ending.Done → err.new ≡ err.old }
    ensures later { (E.faults err.old ≤ E.faults err.new) × (E.empty_writes err.old ≤ E.empty_writes err.new) }
{
    match ending {
        Ending::Done => {}
        _ => {
            let line = ending.line();
            let _ = write_all(err, line.text());
        }
    }
}
