// The side along which a piece is cut.
ghost use Rattle.std.specs.Prelude.{◌≡◌, ℕ};
ghost use Rattle.cutting.specs.Calls.{Computes};
ghost use Rattle.pieces.specs.Cuts.{descend as descend_to, four as four_seams, seam_of};
ghost use Rattle.pieces.specs.Sides.{lengths};
ghost use Rattle.records.specs.Few.{listed};
ghost use Rattle.records.specs.Limits.{share as share_of};

use crate::sides::{left_of, length_of, right_of};
use crate::weights::{holes_below, triangles};
use records::Few;
use ring::Side;

// A cut by holes leaves this many below the seam.
const HOLES_BELOW: usize = 2;

// Whether a piece has four bounding seams: its holes, and its top unless that is the side 0.
fn four(top: u16, holes: Few) -> bool
    ensures { result ≡ four_seams top (listed holes) }
{
    let seams = if top == 0 {
        holes.len()
    } else {
        holes.len() + 1
    };
    seams == 4
}

// The most of t triangles that a cut by triangles leaves below the seam.
fn share(t: u16) -> usize
    ensures { result ≡ share_of t }
{
    (2 * t as usize + 1) / 3
}

// From the side `from` down to the heavier child while the weight is above `most`, in at most `steps` steps.
fn descend<F: Fn(u16) -> usize>(
    sides: &[Side],
    weight: F,
    most: usize,
    steps: u16,
    from: u16,
) -> u16
    requires { F.IsAlwaysCallable weight }
    ensures { (w : ℕ → ℕ) → Computes (F.post weight) w → result ≡ descend_to (lengths sides.now) w most steps from }
{
    let mut v = from;
    for _ in 0..steps {
        if weight(v) <= most {
            return v;
        }
        let left = left_of(v);
        let right = right_of(sides, v);
        v = if weight(left) < weight(right) {
            right
        } else {
            left
        };
    }
    v
}

// The seam of the piece with this top and these holes. Each step down makes the side shorter, so the top's length bounds them.
pub fn seam_of(sides: &[Side], top: u16, holes: Few) -> u16
    ensures { result ≡ seam_of (lengths sides.now) top (listed holes) }
{
    let steps = length_of(sides, top);
    if four(top, holes) {
        return descend(
            sides,
            |v| holes_below(sides, holes, v),
            HOLES_BELOW,
            steps,
            top,
        );
    }
    let most = share(triangles(sides, holes, top));
    descend(
        sides,
        |v| triangles(sides, holes, v) as usize,
        most,
        steps,
        top,
    )
}
