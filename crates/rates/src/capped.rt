// A limited number of tonnes.
ghost use Rattle.std.specs.Prelude.{◌≡◌, ◌<◌, cond, T, MatchOption, nat_le};

// At most 1,000,000,000 tonnes, by its type.
#[derive(Clone, Copy, Debug)]
pub struct Capped {
    tonnes: u32,
    ghost within: { T (nat_le tonnes 1000000000) },
}

impl Capped {
    // The most that a limited load has.
    pub const MOST: u32 = 1_000_000_000;

    // That many tonnes, or nothing where it is too many.
    pub fn new(tonnes: u32) -> Option<Capped>
        ensures { MatchOption result (1000000000 < tonnes) (λ c. c.tonnes ≡ tonnes) }
    {
        if tonnes > Capped::MOST {
            return None;
        }
        Some(Capped { tonnes })
    }

    // 0 tonnes.
    pub fn zero() -> Capped
        ensures { result.tonnes ≡ 0 }
    {
        Capped { tonnes: 0 }
    }

    pub fn tonnes(self) -> u32
        ensures { result ≡ self.tonnes }
    {
        self.tonnes
    }
}
