// What records say: the fields of their bodies.

// The two ends of a link, or of a lane from the first to the second.
#[derive(Clone, Copy, Debug, PartialEq, Eq)]
pub struct Ends {
    pub from: u16,
    pub to: u16,
}

// A lane and a rate for it.
#[derive(Clone, Copy, Debug, PartialEq, Eq)]
pub struct LaneRate {
    pub ends: Ends,
    pub cents: i32,
    pub tonnes: u32,
}

// What a plan starts from: the kind of its rates, the number of its book, how many terminals it
// has, and where its meter starts.
#[derive(Clone, Copy, Debug, PartialEq, Eq)]
pub struct HeadFields {
    pub rate_kind: u8,
    pub book: u32,
    pub terminals: u16,
    pub meter: u32,
}

// A record's kind with the fields of its body.
#[derive(Clone, Copy, Debug, PartialEq, Eq)]
pub enum Content {
    Head(HeadFields),
    Link(Ends),
    PlanEnd,
    Post(LaneRate),
    Shut(Ends),
    Try(LaneRate),
    Keep,
    Withdraw,
    Quote(Ends),
    Route(Ends),
}

// A content with the place of its record on a tape.
#[derive(Clone, Copy, Debug, PartialEq, Eq)]
pub struct Placed {
    pub place: usize,
    pub content: Content,
}
