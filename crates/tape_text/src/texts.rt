// The text of a record.
ghost use Rattle.std.specs.Prelude.{◌≡◌, IfOk, string_bytes};
ghost use Rattle.tape.specs.Texts.{text_of, line_of};

use std::alloc::{AllocError, Global};
use tape::{Content, Placed};

// The text of a record: the name of its kind, then its fields. A name that stands alone is copied, since to print it made the
// reading of a text of such lines take a third longer.
pub fn text_of(heap: Global, content: Content) -> Result<String, AllocError>
    ensures { IfOk result (λ s. string_bytes s ≡ text_of content) }
{
    match content {
        Content::PlanEnd | Content::Keep | Content::Withdraw => {
            String::from_str(heap, content.kind().name())
        }
        _ => content.to_string(heap),
    }
}

// The same behind the record's place.
pub fn line_of(heap: Global, x: Placed) -> Result<String, AllocError>
    ensures { IfOk result (λ s. string_bytes s ≡ line_of x) }
{
    x.to_string(heap)
}
