// Small plans: which are refused, and what the fill of an accepted one looks like.
use crate::{Link, PlanFault, Side, find_side, triangulate};

const BLANK: Side = Side {
    low: 9,
    high: 9,
    link: true,
    leaf: 9,
};

fn link(from: u16, to: u16) -> Link {
    Link { from, to }
}

#[test]
fn bad_plans_are_refused(rt: HostRuntime) {
    let mut sides = [BLANK; 6];
    assert_eq!(rt; triangulate(2, &[], &mut sides), Err(PlanFault::Terminals));
    assert_eq!(rt;
        triangulate(4097, &[], &mut sides),
        Err(PlanFault::Terminals)
    );
    assert_eq!(rt;
        triangulate(5, &[link(7, 7)], &mut sides),
        Err(PlanFault::ShortArea)
    );
    assert_eq!(rt;
        triangulate(4, &[link(0, 2), link(3, 4)], &mut sides),
        Err(PlanFault::BadEnds(1))
    );
    assert_eq!(rt;
        triangulate(4, &[link(0, 2), link(2, 0)], &mut sides),
        Err(PlanFault::Repeats(1))
    );
    assert_eq!(rt;
        triangulate(4, &[link(0, 2), link(3, 2), link(1, 3)], &mut sides),
        Err(PlanFault::Crosses(2))
    );
}

#[test]
fn links_that_meet_at_an_end_do_not_cross(rt: HostRuntime) {
    let mut sides = [BLANK; 6];
    assert_eq!(rt;
        triangulate(4, &[link(0, 2), link(0, 3)], &mut sides),
        Ok(())
    );
    assert_eq!(rt; find_side(4, &sides, 2, 0), Some(1));
    assert_eq!(rt; find_side(4, &sides, 1, 3), None);
    assert!(rt; sides[1].link);
    assert!(rt; !sides[4].link);
    assert_eq!(rt;
        sides[5].leaf,
        9,
        "the place past the last side is as it was"
    );
}
