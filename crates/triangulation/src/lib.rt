// Triangulations of a ring polygon: the theorems that the layers above cite. No code runs here.
#![tactic(auto)]

ghost use Rattle.triangulation.specs.Filling.{FillTriangulates, LinksAreSides, OneFill, SomeFill};
ghost use Rattle.triangulation.specs.Geometry.{LengthsFromPlaces, OneSubtreeAtAPlace, PreorderIsSorted, ReadByPlace, SidesByPlace, SidesPartTheRing};

// The fill exists, is one, triangulates the ring, and has every link among its sides.
pub fn fill_is_decided_by_links()
    ensures exists { SomeFill }
    ensures unique { OneFill }
    ensures triangulates { FillTriangulates }
    ensures draws_links { LinksAreSides }
{}

// Which subtree stands where in the preorder.
pub fn preorder_is_read_by_place()
    ensures one { OneSubtreeAtAPlace }
    ensures base { SidesByPlace }
    ensures read { ReadByPlace }
    ensures lengths { LengthsFromPlaces }
    ensures sorted { PreorderIsSorted }
{}

// Every triangle lies on one side of a given side.
pub fn side_parts_the_ring()
    ensures { SidesPartTheRing }
{}
