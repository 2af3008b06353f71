// A record as a part of its tape, and its fields.
ghost use Rattle.std.specs.Prelude.{◌≡◌, ◌^◌, ◌≤◌, ◌<◌, length, take, MatchResult};
ghost use Rattle.tape.specs.Views.{ContentIs, PlacedIs};
ghost use Rattle.tape.specs.Tape.{cut_short};

use crate::contents::{Content, Placed};
use crate::faults::{Reason, TapeFault};
use crate::kinds::Kind;

// A record: its kind, its place (the number of bytes before it) and its body, which it borrows from the tape.
#[derive(Clone, Copy, Debug, PartialEq, Eq)]
pub struct Record<'a> {
    pub kind: Kind,
    pub place: usize,
    pub body: &'a [u8],
}

impl<'a> Record<'a> {
    // The fields whose bytes the body begins with; one with too short a body is cut short.
    fn fields<T: From<[u8; N]>, const N: usize>(&self) -> Result<T, TapeFault>
        requires { N < 2 ^ 63 }
        ensures { MatchResult result
            (λ x. (N ≤ length self.now.body.now) × T.from_gives (take N self.now.body.now) x)
            (λ f. (length self.now.body.now < N) × (f ≡ cut_short self.now.place)) }
    {
        match self.body.first_chunk::<N>() {
            Some(bytes) => Ok(T::from(*bytes)),
            None => Err(TapeFault {
                reason: Reason::CutShort,
                place: self.place,
            }),
        }
    }

    // The fields of the body. It has them all where the reader shows the record; one made by hand
    // with too short a body is cut short.
    pub fn content(&self) -> Result<Content, TapeFault>
        ensures { ContentIs self.now result }
    {
        let content = match self.kind {
            Kind::Head => Content::Head(self.fields::<_, 11>()?),
            Kind::Link => Content::Link(self.fields::<_, 4>()?),
            Kind::PlanEnd => Content::PlanEnd,
            Kind::Post => Content::Post(self.fields::<_, 12>()?),
            Kind::Shut => Content::Shut(self.fields::<_, 4>()?),
            Kind::Try => Content::Try(self.fields::<_, 12>()?),
            Kind::Keep => Content::Keep,
            Kind::Withdraw => Content::Withdraw,
            Kind::Quote => Content::Quote(self.fields::<_, 4>()?),
            Kind::Route => Content::Route(self.fields::<_, 4>()?),
        };
        Ok(content)
    }

    // The content beside the record's place.
    pub fn placed(&self) -> Result<Placed, TapeFault>
        ensures { PlacedIs self.now result }
    {
        Ok(Placed {
            place: self.place,
            content: self.content()?,
        })
    }
}
