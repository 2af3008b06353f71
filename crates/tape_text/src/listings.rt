// A tape as a listing: a line for each record, then how the tape ends.
ghost use Rattle.std.specs.Prelude.{◌≡◌, map, IfOk, MatchResult, Err, string_bytes};
ghost use Rattle.tape.specs.Tape.{Means};
ghost use Rattle.tape.specs.Views.{PlacedIs};
ghost use Rattle.tape.specs.Laws.{part_of};
ghost use Rattle.tape_text.specs.Listings.{ending_of, end_text, lines_of, Lists};

use std::alloc::{AllocError, Global};
use tape::{Placed, Reader, Record, TapeFault};

// The contents of a tape's records with their places, and its fault if it has one. No `Result`:
// the records before a fault count too.
#[derive(Debug, Drop)]
pub struct Listing {
    pub records: Vec<Placed>,
    pub fault: Option<TapeFault>,
}

// The content of what the reader shows, beside its place.
fn placed(item: Result<Record<'_>, TapeFault>) -> Result<Placed, TapeFault>
    ensures { MatchResult item.entry (λ r. PlacedIs r result) (λ f. result ≡ Err f) }
{
    item?.placed()
}

// Reads a tape to its end or its fault.
pub fn read_all(heap: Global, tape: &[u8]) -> Result<Listing, AllocError>
    ensures { IfOk result (λ l. Means tape.now (map part_of l.records.items) (ending_of l.fault)) }
{
    let mut records = Vec::new(heap);
    for record in Reader::new(tape) {
        match placed(record) {
            Ok(x) => records.push(x)?,
            Err(fault) => {
                return Ok(Listing {
                    records,
                    fault: Some(fault),
                });
            }
        }
    }
    Ok(Listing {
        records,
        fault: None,
    })
}

// How a tape of so many bytes ends.
pub fn end_of(heap: Global, fault: Option<TapeFault>, length: usize) -> Result<String, AllocError>
    ensures { IfOk result (λ s. string_bytes s ≡ end_text fault length) }
{
    match fault {
        None => format!(in heap; "# end at {length}"),
        Some(f) => f.to_string(heap),
    }
}

// A line for each record.
fn lines_of(heap: Global, records: &[Placed]) -> Result<String, AllocError>
    ensures { IfOk result (λ s. string_bytes s ≡ lines_of records.now) }
{
    let mut out = String::new(heap);
    for x in records {
        writeln!(out, "{x}")?;
    }
    Ok(out)
}

// The listing of a tape.
pub fn list_tape(heap: Global, tape: &[u8]) -> Result<String, AllocError>
    ensures { IfOk result (λ s. Lists tape.now (string_bytes s)) }
{
    let all = read_all(heap, tape)?;
    let lines = lines_of(heap, all.records.as_slice())?;
    let end = end_of(heap, all.fault, tape.len())?;
    format!(in heap; "{lines}{end}\n")
}
