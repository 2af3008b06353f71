// The text that lines of orders are answered with.
ghost use Rattle.std.specs.Prelude.{◌≡◌, map, IfOk, string_bytes};
ghost use Rattle.slow_quotes.specs.Networks.{network_of};
ghost use Rattle.slow_quotes.specs.Quotes.{fault_text, quotation_text, kindless_text, heading, LineAnswered, Quoted, Told};

use crate::fault::Fault;
use crate::held::{Held, Quotation};
use crate::order::read_order;
use offers::kinds::KindName;
use offers::written::Written;
use rates::cents::Cents;
use rates::pair::Pair;
use rates::tonnes::Tonnes;
use std::alloc::{AllocError, Global};

// One line of the text: its number from 1, and its words.
#[derive(Drop)]
pub struct Line {
    pub number: usize,
    pub text: String,
}

// What is answered to a quote: the rate between two terminals.
fn quotation_text<R: Written>(heap: Global, quotation: Quotation<R>) -> Result<String, AllocError>
    ensures { IfOk result (λ s. string_bytes s ≡ quotation_text R.Written.text quotation) }
{
    let from = quotation.ends.from;
    let to = quotation.ends.to;
    let rate = quotation.rate;
    format!(in heap; "{from} to {to}: {rate}\n")
}

// What is answered to a line at fault.
fn fault_text(heap: Global, line: usize, fault: Fault) -> Result<String, AllocError>
    ensures { IfOk result (λ s. string_bytes s ≡ fault_text line fault) }
{
    format!(in heap; "line {line}: {fault}\n")
}

// What a line is answered with.
fn said<R: Written>(heap: Global, net: &mut Held<R>, line: &Line) -> Result<String, AllocError>
    ensures { IfOk result (λ s. LineAnswered R.kind R.means R.Written.reads R.Written.text (network_of R.kind R.means net.old) line.now (network_of R.kind R.means net.new) (string_bytes s)) }
{
    let Some(order) = read_order::<R>(line.text.as_str()) else {
        return fault_text(heap, line.number, Fault::NoOrder);
    };
    match net.carry_out(heap, order)? {
        Ok(Some(quotation)) => quotation_text(heap, quotation),
        Ok(None) => Ok(String::new(heap)),
        Err(fault) => fault_text(heap, line.number, fault),
    }
}

// What lines under the name of a kind are answered with, from a network without terminals on.
pub fn quoted<R: Written>(heap: Global, lines: &[Line]) -> Result<String, AllocError>
    ensures { IfOk result (λ s. Quoted R.kind R.means R.Written.reads R.Written.text lines.now (string_bytes s)) }
{
    let mut text = String::new(heap);
    let mut net = Held::new(heap);
    for line in lines {
        text.push_str(said::<R>(heap, &mut net, line)?.as_str())?;
    }
    Ok(text)
}

// What lines above the name of a kind are answered with: each is at fault.
fn nothing_quoted(heap: Global, lines: &[Line]) -> Result<String, AllocError>
    ensures { IfOk result (λ s. string_bytes s ≡ kindless_text lines.now) }
{
    let mut text = String::new(heap);
    for line in lines {
        text.push_str(fault_text(heap, line.number, Fault::NoKind)?.as_str())?;
    }
    Ok(text)
}

// The name of a kind, and what the lines below it are answered with.
pub fn told(heap: Global, kind: Option<KindName>, lines: &[Line]) -> Result<String, AllocError>
    ensures { IfOk result (λ s. Told (heading kind) lines.now (string_bytes s)) }
{
    let Some(kind) = kind else {
        let answers = nothing_quoted(heap, lines)?;
        return format!(in heap; "no kind\n{answers}");
    };
    let answers = match kind {
        KindName::Cents => quoted::<Cents>(heap, lines)?,
        KindName::Tonnes => quoted::<Tonnes>(heap, lines)?,
        KindName::CentsBeforeTonnes => quoted::<Pair<Cents, Tonnes>>(heap, lines)?,
    };
    format!(in heap; "{kind}\n{answers}")
}
