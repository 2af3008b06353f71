// A part of a cut piece, split at the seam into parts of its two children.
ghost use Rattle.std.specs.Prelude.{◌≡◌, if◌then◌else◌};
ghost use Rattle.piece_rates.specs.Climbing.{seam_ends};
ghost use Rattle.unfolding.specs.Parts.{child};
ghost use Rattle.quoting.specs.Seams.{is_first};
ghost use Rattle.routing.specs.Seams.{is_low};
ghost use Rattle.routing.specs.Splits.{Across, BothInChild, EndsApart, IsSeamOf, PartRate, PartTouches, RatedPlan, Round, SplitAcross, SplitAt, SplitTogether, TouchesSeam, Within};
ghost use Rattle.routing.specs.Waiting.{part_of};

use crate::seam::{End, Lie};
use crate::waiting::{Parts, RoutePart};
use quoting::{Areas, Child, Seam, best_within};
use rates::kind::Rate;

// A way to split a part: the parts, and their rates joined.
#[derive(Clone, Copy)]
pub struct Way<R> {
    pub parts: Parts,
    pub rate: R,
}

// A part of a cut piece at its seam, and the child that it starts in.
#[derive(Clone, Copy)]
pub struct SeamPart<'a, R> {
    pub areas: Areas<'a, R>,
    pub seam: Seam,
    pub child: Child,
    pub part: RoutePart,
}

// The best rate of a part.
fn part_rate<R: Rate>(areas: Areas<'_, R>, part: RoutePart) -> R
    ensures { (plan : RatedPlan R.kind R.means areas.entry) → PartTouches plan (part_of part) → PartRate R.kind plan.best (part_of part) (R.means result) }
{
    best_within(areas, part.piece, part.from, part.to)
}

impl<R: Rate> Way<R> {
    // This way, unless the other is better.
    fn or_better(self, other: Way<R>) -> Way<R>
        ensures { result ≡ (if R.kind.better (R.means other.rate) (R.means self.rate) then other else self) }
    {
        if other.rate.better(self.rate) {
            other
        } else {
            self
        }
    }
}

impl<R: Rate> SeamPart<'_, R> {
    // An end of its seam.
    fn end(self, end: End) -> u16
        ensures { result ≡ seam_ends self.entry.seam.low self.entry.seam.high (is_low end) }
    {
        match end {
            End::Low => self.seam.low,
            End::High => self.seam.high,
        }
    }

    // A part of a child.
    fn part_in(self, which: Child, from: u16, to: u16) -> RoutePart
        ensures { result ≡ record { piece = child self.entry.seam.piece (is_first which); from = from; to = to } }
    {
        RoutePart {
            piece: self.seam.child(which),
            from,
            to,
        }
    }

    // Both terminals lie in the child: within it.
    fn within(self) -> Way<R>
        ensures { (plan : RatedPlan R.kind R.means self.entry.areas) → BothInChild self.entry plan → Within self.entry plan result }
    {
        let only = self.part_in(self.child, self.part.from, self.part.to);
        Way {
            parts: Parts::Within(only),
            rate: part_rate(self.areas, only),
        }
    }

    // Both terminals lie in the child: out of it by an end of the seam, through the other child, and back by the other end.
    fn round(self, end: End) -> Way<R>
        ensures { (plan : RatedPlan R.kind R.means self.entry.areas) → BothInChild self.entry plan → Round self.entry plan (is_low end) result }
    {
        let near = self.end(end);
        let far = self.end(end.other());
        let out = self.part_in(self.child, self.part.from, near);
        let across = self.part_in(self.child.other(), near, far);
        let back = self.part_in(self.child, far, self.part.to);
        let rate = part_rate(self.areas, out).join(part_rate(self.areas, across));
        Way {
            parts: Parts::Round(out, across, back),
            rate: rate.join(part_rate(self.areas, back)),
        }
    }

    // The terminals lie in different children: from one to the other by an end of the seam.
    fn across(self, end: End) -> Way<R>
        ensures { (plan : RatedPlan R.kind R.means self.entry.areas) → EndsApart self.entry plan → Across self.entry plan (is_low end) result }
    {
        let end = self.end(end);
        let first = self.part_in(self.child, self.part.from, end);
        let last = self.part_in(self.child.other(), end, self.part.to);
        Way {
            parts: Parts::Across(first, last),
            rate: part_rate(self.areas, first).join(part_rate(self.areas, last)),
        }
    }

    // Both terminals lie in the child: within it, unless going round by the other child is better.
    fn split_together(self) -> Parts
        ensures { (plan : RatedPlan R.kind R.means self.entry.areas) → BothInChild self.entry plan → SplitTogether self.entry plan result }
    {
        let round = self.round(End::Low).or_better(self.round(End::High));
        self.within().or_better(round).parts
    }

    // The terminals lie in different children: by the seam's low end, unless by the high end is better.
    fn split_across(self) -> Parts
        ensures { (plan : RatedPlan R.kind R.means self.entry.areas) → EndsApart self.entry plan → SplitAcross self.entry plan result }
    {
        self.across(End::Low)
            .or_better(self.across(End::High))
            .parts
    }
}

// The parts that a part of a cut piece is split into.
pub(crate) fn split<R: Rate>(areas: Areas<'_, R>, seam: Seam, part: RoutePart) -> Parts
    ensures { (plan : RatedPlan R.kind R.means areas.entry) → IsSeamOf plan seam → TouchesSeam plan seam part.from → TouchesSeam plan seam part.to → SplitAt plan seam part result }
{
    match Lie::of(seam, part.from, part.to) {
        Lie::Together(child) => SeamPart {
            areas,
            seam,
            child,
            part,
        }
        .split_together(),
        Lie::Apart(child) => SeamPart {
            areas,
            seam,
            child,
            part,
        }
        .split_across(),
    }
}
