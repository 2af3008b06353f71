// Kinds of rate whose rates are read from words and printed.
ghost use Rattle.std.specs.Prelude.{◌≡◌, ℕ, List, Option, Some, refl};
ghost use Rattle.rates.specs.declared.cents.Cents.TheVariants.{Whole};
ghost use Rattle.rates.specs.Meanings.{load_of};
ghost use Rattle.offers.specs.Words.{Number, number as number_of, LoadOf, ReadAs, CentsRead, TonnesRead, PairRead};
ghost use Rattle.rates.specs.Texts.{cents_text, tonnes_text, joined_text, parts_printed};

use rates::capped::Capped;
use rates::cents::Cents;
use rates::kind::{Rate, Strict};
use rates::pair::Pair;
use rates::tonnes::Tonnes;
use std::fmt;
use std::num::IntErrorKind;

// A kind of rate whose rates are read from words and printed.
pub trait Written: Rate + fmt::Display {
    // What a word may be read as.
    ghost reads: { List ℕ → Option Self → Type 0 };

    // The text of a rate.
    ghost text: { Self → List ℕ };

    // The rate that a word writes; a number that is no rate of the kind is read as none, and no number as nothing.
    fn read(word: &str) -> Option<Self>
        ensures { reads word.now result };

    // Printing a rate writes its text.
    ghost printed: { (rate : Self) → Self.Display.output rate ≡ Some (text rate) };
}

// A whole number in decimal; one past the range of 64 bits is read as the end of that range.
fn read_number(word: &str) -> Option<i64>
    ensures number { Number word.now → result ≡ Some (number_of word.now) }
    ensures any { ReadAs word.now result }
{
    match word.parse::<i64>() {
        Ok(number) => Some(number),
        Err(fault) => match fault.kind() {
            IntErrorKind::PosOverflow => Some(i64::MAX),
            IntErrorKind::NegOverflow => Some(i64::MIN),
            _ => None,
        },
    }
}

// That many tonnes, or none where there is no such load.
fn tonnes_of(number: i64) -> Tonnes
    ensures { LoadOf number (load_of result) }
{
    match u32::try_from(number).ok().and_then(Capped::new) {
        Some(capped) => Tonnes::UpTo(capped),
        None => Tonnes::none(),
    }
}

impl Written for Cents {
    ghost reads = { CentsRead };

    ghost text = { cents_text };

    ghost printed = { λ rate. refl };

    fn read(word: &str) -> Option<Cents>
        ensures number { Number word.now → result ≡ Some (Whole (number_of word.now)) }
        ensures any { CentsRead word.now result }
    {
        Some(Cents::Whole(read_number(word)?))
    }
}

impl Written for Tonnes {
    ghost reads = { TonnesRead };

    ghost text = { tonnes_text };

    ghost printed = { λ rate. refl };

    fn read(word: &str) -> Option<Tonnes> {
        Some(tonnes_of(read_number(word)?))
    }
}

impl<P: Written + Strict, Q: Written> Written for Pair<P, Q> {
    ghost reads = { PairRead P.Written.reads Q.Written.reads };

    ghost text = { λ pair. joined_text (P.Written.text pair.first) (Q.Written.text pair.second) };

    ghost printed = { λ pair. parts_printed (P.Written.printed pair.first) (Q.Written.printed pair.second) };

    fn read(word: &str) -> Option<Pair<P, Q>> {
        let (first, second) = word.split_once('/')?;
        Some(Pair {
            first: P::read(first)?,
            second: Q::read(second)?,
        })
    }
}
