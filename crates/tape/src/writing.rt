// The writer: puts records into an area as bytes.
ghost use Rattle.std.specs.Prelude.{◌≡◌, ◌+◌, ◌≤◌, length};
ghost use Rattle.tape.specs.Areas.{put_in};
ghost use Rattle.tape.specs.Contents.{kind_of, record_bytes};
ghost use Rattle.tape.specs.Writes.{Wrote};

use crate::contents::Content;
use crate::faults::WriteFault;
use crate::kinds::Kind;

// Puts a body into the area, behind the byte of its kind.
fn put_body(area: &mut [u8], body: &[u8])
    requires { 1 + length body.now ≤ length area.old }
    ensures { area.new ≡ put_in area.old 1 body.now }
{
    area[1..1 + body.len()].copy_from_slice(body);
}

impl Content {
    // The kind of record that says this: an arm for each kind, since no derive names a variant without its fields.
    pub fn kind(&self) -> Kind
        ensures { result ≡ kind_of self.now }
    {
        match self {
            Content::Head(_) => Kind::Head,
            Content::Link(_) => Kind::Link,
            Content::PlanEnd => Kind::PlanEnd,
            Content::Post(_) => Kind::Post,
            Content::Shut(_) => Kind::Shut,
            Content::Try(_) => Kind::Try,
            Content::Keep => Kind::Keep,
            Content::Withdraw => Kind::Withdraw,
            Content::Quote(_) => Kind::Quote,
            Content::Route(_) => Kind::Route,
        }
    }

    // The number of bytes that the record takes.
    pub fn length(&self) -> usize
        ensures { result ≡ length (record_bytes self.now) }
    {
        1 + self.kind().body_length()
    }

    // Puts the record at the front of the area and answers the number of its bytes, or writes nothing.
    pub fn write(&self, area: &mut [u8]) -> Result<usize, WriteFault>
        ensures { Wrote self.now area.old result area.new }
    {
        let long = self.length();
        if area.len() < long {
            return Err(WriteFault::AreaTooShort);
        }
        area[0] = self.kind().byte();
        // A table of the format: an arm for each shape of body.
        match self {
            Content::Head(h) => put_body(area, &<[u8; 11]>::from(*h)),
            Content::Post(l) | Content::Try(l) => put_body(area, &<[u8; 12]>::from(*l)),
            Content::Link(e) | Content::Shut(e) | Content::Quote(e) | Content::Route(e) => {
                put_body(area, &<[u8; 4]>::from(*e))
            }
            Content::PlanEnd | Content::Keep | Content::Withdraw => {}
        }
        Ok(long)
    }
}
