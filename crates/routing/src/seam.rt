// The ends of a seam, and how two terminals lie beside it.
ghost use Rattle.std.specs.Prelude.{◌≡◌, not};
ghost use Rattle.routing.specs.Seams.{is_low, LiesAs};

use quoting::{Child, Seam};

// An end of a seam.
#[derive(Clone, Copy)]
pub enum End {
    Low,
    High,
}

impl End {
    // A type beside `Child`, with an `other` of its own, since an end and a child must not be mixed.
    pub(crate) fn other(self) -> End
        ensures { is_low result ≡ not (is_low self) }
    {
        match self {
            End::Low => End::High,
            End::High => End::Low,
        }
    }
}

// How two terminals of a cut piece lie: both in a child, the first if both do, or the first of them in a child and the second
// in the other.
#[derive(Clone, Copy)]
pub enum Lie {
    Together(Child),
    Apart(Child),
}

impl Lie {
    // How u and v lie.
    pub(crate) fn of(seam: Seam, u: u16, v: u16) -> Lie
        ensures { LiesAs seam.low seam.high u v result }
    {
        if seam.both_lie(Child::First, u, v) {
            Lie::Together(Child::First)
        } else if seam.both_lie(Child::Second, u, v) {
            Lie::Together(Child::Second)
        } else if seam.lies(Child::First, u) {
            Lie::Apart(Child::First)
        } else {
            Lie::Apart(Child::Second)
        }
    }
}
