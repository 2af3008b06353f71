// Records as text: the name of the kind, then the fields in decimal.
ghost use Rattle.std.specs.Prelude.{Some};
ghost use Rattle.tape.specs.Texts.{ends_words, lane_words, head_words, text_of, line_of};

use crate::contents::{Content, Ends, HeadFields, LaneRate, Placed};
use std::fmt;

impl fmt::Display for Ends {
    ghost output = { λ e. Some (ends_words e) };

    fn fmt<W: fmt::Write>(&self, f: &mut fmt::Formatter<W>) -> fmt::Result {
        let (from, to) = (self.from, self.to);
        write!(f, "{from} {to}")
    }
}

impl fmt::Display for LaneRate {
    ghost output = { λ l. Some (lane_words l) };

    fn fmt<W: fmt::Write>(&self, f: &mut fmt::Formatter<W>) -> fmt::Result {
        let (ends, cents, tonnes) = (self.ends, self.cents, self.tonnes);
        write!(f, "{ends} cents {cents} tonnes {tonnes}")
    }
}

impl fmt::Display for HeadFields {
    ghost output = { λ h. Some (head_words h) };

    fn fmt<W: fmt::Write>(&self, f: &mut fmt::Formatter<W>) -> fmt::Result {
        let (kind, book) = (self.rate_kind, self.book);
        let (terminals, meter) = (self.terminals, self.meter);
        write!(
            f,
            "rates {kind} book {book} terminals {terminals} meter {meter}"
        )
    }
}

impl fmt::Display for Content {
    ghost output = { λ c. Some (text_of c) };

    fn fmt<W: fmt::Write>(&self, f: &mut fmt::Formatter<W>) -> fmt::Result {
        let kind = self.kind();
        match self {
            Content::Head(h) => write!(f, "{kind} {h}"),
            Content::Post(l) | Content::Try(l) => write!(f, "{kind} {l}"),
            Content::Link(e) | Content::Shut(e) | Content::Quote(e) | Content::Route(e) => {
                write!(f, "{kind} {e}")
            }
            Content::PlanEnd | Content::Keep | Content::Withdraw => write!(f, "{kind}"),
        }
    }
}

// The content behind the place of its record.
impl fmt::Display for Placed {
    ghost output = { λ x. Some (line_of x) };

    fn fmt<W: fmt::Write>(&self, f: &mut fmt::Formatter<W>) -> fmt::Result {
        let (place, content) = (self.place, self.content);
        write!(f, "{place}: {content}")
    }
}
