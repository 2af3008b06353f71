// A record back from its text.
ghost use Rattle.std.specs.Prelude.{IfOk};
ghost use Rattle.tape_text.specs.Parses.{CutIs, EndsBack, LaneBack, HeadBack, ContentBack, ParsedAs};

use crate::texts::text_of;
use std::alloc::{AllocError, Global};
use tape::{Content, Ends, HeadFields, Kind, LaneRate};

// What stands before the first such character, and what stands behind it; the whole text and
// nothing behind it where it has none.
fn cut(text: &str, at: char) -> (&str, &str)
    ensures { CutIs text.now at result.0.now result.1.now }
{
    text.split_once(at).unwrap_or((text, ""))
}

// Fields that are written so.
fn ends_from(text: &str) -> Option<Ends>
    ensures { EndsBack text.now result }
{
    let (from, to) = cut(text, ' ');
    Some(Ends {
        from: from.parse().ok()?,
        to: to.parse().ok()?,
    })
}

fn lane_from(text: &str) -> Option<LaneRate>
    ensures { LaneBack text.now result }
{
    let (from, behind_from) = cut(text, ' ');
    let (to, behind_to) = cut(behind_from, ' ');
    let (_, behind_name) = cut(behind_to, ' ');
    let (cents, behind_cents) = cut(behind_name, ' ');
    let (_, tonnes) = cut(behind_cents, ' ');
    Some(LaneRate {
        ends: Ends {
            from: from.parse().ok()?,
            to: to.parse().ok()?,
        },
        cents: cents.parse().ok()?,
        tonnes: tonnes.parse().ok()?,
    })
}

fn head_from(text: &str) -> Option<HeadFields>
    ensures { HeadBack text.now result }
{
    let (_, behind_rates) = cut(text, ' ');
    let (kind, behind_kind) = cut(behind_rates, ' ');
    let (_, behind_book) = cut(behind_kind, ' ');
    let (book, behind_number) = cut(behind_book, ' ');
    let (_, behind_terminals) = cut(behind_number, ' ');
    let (terminals, behind_count) = cut(behind_terminals, ' ');
    let (_, meter) = cut(behind_count, ' ');
    Some(HeadFields {
        rate_kind: kind.parse().ok()?,
        book: book.parse().ok()?,
        terminals: terminals.parse().ok()?,
        meter: meter.parse().ok()?,
    })
}

// The content that has this text, if any has.
fn propose(text: &str) -> Option<Content>
    ensures { ContentBack text.now result }
{
    let (name, fields) = cut(text, ' ');
    let content = match name.parse().ok()? {
        Kind::Head => Content::Head(head_from(fields)?),
        Kind::Link => Content::Link(ends_from(fields)?),
        Kind::PlanEnd => Content::PlanEnd,
        Kind::Post => Content::Post(lane_from(fields)?),
        Kind::Shut => Content::Shut(ends_from(fields)?),
        Kind::Try => Content::Try(lane_from(fields)?),
        Kind::Keep => Content::Keep,
        Kind::Withdraw => Content::Withdraw,
        Kind::Quote => Content::Quote(ends_from(fields)?),
        Kind::Route => Content::Route(ends_from(fields)?),
    };
    Some(content)
}

// The content that has this text. What the words propose counts only if it is written as the same
// text again, so a text with a misspelt name, a number out of range or a blank too many has none.
pub fn parse(heap: Global, text: &str) -> Result<Option<Content>, AllocError>
    ensures { IfOk result (ParsedAs text.now) }
{
    let Some(content) = propose(text) else {
        return Ok(None);
    };
    let again = text_of(heap, content)?;
    if again.as_str() == text {
        Ok(Some(content))
    } else {
        Ok(None)
    }
}
