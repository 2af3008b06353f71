// The text of offers, line by line, and the table that is printed.
use offers::kinds::KindName;
use offers::offer::{Refusal, price};
use offers::written::Written;
use rates::cents::Cents;
use rates::many::{best_place, same};
use rates::pair::Pair;
use rates::tonnes::Tonnes;
use std::alloc::{AllocError, Global};
use std::io;
use std::io::{BufRead, BufReader};
use thiserror::Error;

// One line of the text: its number from 1, and an offered trip.
#[derive(Drop)]
pub struct Offer {
    line: usize,
    text: String,
}

// Why a line has no price. A lane is named by its number from 1.
#[derive(Clone, Copy, Debug, Error)]
pub enum Fault {
    #[error("no number at lane {0}")]
    NoNumber(usize),
    #[error(transparent)]
    Refused(#[from] Refusal),
    #[error("out of memory")]
    Memory(#[from(alloc)] AllocError),
}

// A trip with its price, and its place among the trips that have one.
#[derive(Clone, Copy)]
pub struct Priced<R> {
    place: usize,
    lanes: usize,
    rate: R,
}

// The lane rates that a line writes.
fn read_lanes<R: Written>(heap: Global, text: &str) -> Result<Vec<R>, Fault> {
    let mut lanes = Vec::new(heap);
    for (i, word) in text.split_whitespace().enumerate() {
        match R::read(word) {
            Some(rate) => lanes.push(rate)?,
            None => return Err(Fault::NoNumber(i.saturating_add(1))),
        }
    }
    Ok(lanes)
}

// The price of the trip that a line writes, as the one at this place among those that have a price.
fn price_line<R: Written>(heap: Global, text: &str, place: usize) -> Result<Priced<R>, Fault> {
    let lanes = read_lanes::<R>(heap, text)?;
    let rate = price(lanes.as_slice())?;
    Ok(Priced {
        place,
        lanes: lanes.len(),
        rate,
    })
}

// What is said of a priced trip, given the place of the best among all rates.
fn remark<R: Written>(priced: Priced<R>, best: Option<usize>, rates: &[R]) -> &'static str {
    match best {
        Some(at) if at == priced.place => "best",
        Some(at) if rates.get(at).is_some_and(|rate| same(*rate, priced.rate)) => "as good",
        _ => "",
    }
}

// A trip with its price, or why it has none, and the line that offers it.
#[derive(Clone, Copy)]
struct Row<R> {
    line: usize,
    outcome: Result<Priced<R>, Fault>,
}

// The rows of all offers of a kind, in order, and the rates of those that have one.
#[derive(Drop)]
struct Table<R> {
    rows: Vec<Row<R>>,
    rates: Vec<R>,
}

impl<R: Written + Drop> Table<R> {
    // Prices one more offer.
    fn add(&mut self, heap: Global, offer: &Offer) -> Result<(), AllocError> {
        let outcome = price_line::<R>(heap, offer.text.as_str(), self.rates.len());
        if let Ok(priced) = &outcome {
            self.rates.push(priced.rate)?;
        }
        self.rows.push(Row {
            line: offer.line,
            outcome,
        })?;
        Ok(())
    }

    fn print_row(&self, rt: &HostRuntime, row: Row<R>, best: Option<usize>) -> io::Result<()> {
        let line = row.line;
        match row.outcome {
            Ok(priced) => {
                let lanes = priced.lanes;
                let said = remark(priced, best, self.rates.as_slice());
                let rate = priced.rate;
                println!(rt; "{line:>4}  {lanes:>5}  {said:<8} {rate}")
            }
            Err(fault) => println!(rt; "{line:>4}  {fault}"),
        }
    }
}

// Prices the offers of a kind, and prints the table.
fn report<R: Written + Drop>(rt: &HostRuntime, offers: &[Offer]) -> io::Result<()> {
    let heap = rt.alloc();
    let mut table = Table::<R> {
        rows: Vec::new(heap),
        rates: Vec::new(heap),
    };
    for offer in offers {
        table.add(heap, offer)?;
    }
    rt.println("line  lanes           rate")?;
    let best = best_place(table.rates.as_slice());
    for row in table.rows.iter() {
        table.print_row(rt, *row, best)?;
    }
    Ok(())
}

// Says of each offer that no kind of rate is named.
fn report_kindless(rt: &HostRuntime, offers: &[Offer]) -> io::Result<()> {
    for offer in offers {
        let line = offer.line;
        println!(rt; "line {line}: no kind of rate is named yet")?;
    }
    Ok(())
}

// The offers of one kind, or of none, where no kind has been named yet.
fn report_group(rt: &HostRuntime, kind: Option<KindName>, offers: &[Offer]) -> io::Result<()> {
    let Some(kind) = kind else {
        return report_kindless(rt, offers);
    };
    println!(rt; "rates in {kind}")?;
    match kind {
        KindName::Cents => report::<Cents>(rt, offers),
        KindName::Tonnes => report::<Tonnes>(rt, offers),
        KindName::CentsBeforeTonnes => report::<Pair<Cents, Tonnes>>(rt, offers),
    }
}

// Reads the text, and prints a table for each kind that it names.
pub(crate) fn run(rt: &HostRuntime) -> io::Result<()> {
    let heap = rt.alloc();
    let mut kind = None;
    let mut offers = Vec::new(heap);
    let lines = BufReader::new(heap, rt.stdin())?.lines(heap);
    for (text, line) in lines.zip(1usize..usize::MAX) {
        let text = text?;
        match text.parse::<KindName>() {
            Ok(next) => {
                report_group(rt, kind, offers.as_slice())?;
                offers.clear();
                kind = Some(next);
            }
            Err(_) => offers.push(Offer { line, text })?,
        }
    }
    report_group(rt, kind, offers.as_slice())
}
