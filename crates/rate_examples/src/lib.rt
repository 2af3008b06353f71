// Examples of the kinds of rate at their limits, as tests.
#![tactic(auto)]

#[cfg(test)]
mod tests {
    use rates::capped::Capped;
    use rates::cents::Cents;
    use rates::kind::Rate;
    use rates::many::{best_of_all, is_none, join_all, same};
    use rates::pair::Pair;
    use rates::tonnes::Tonnes;

    fn tonnes(n: u32) -> Tonnes {
        match Capped::new(n) {
            Some(capped) => Tonnes::UpTo(capped),
            None => Tonnes::Unlimited,
        }
    }

    fn pair(cents: i64, load: u32) -> Pair<Cents, Tonnes> {
        Pair {
            first: Cents::Whole(cents),
            second: tonnes(load),
        }
    }

    #[test]
    fn cents_at_their_limits(rt: HostRuntime) {
        assert!(rt; Cents::Whole(1_000_000_000).is_lane_rate());
        assert!(rt; Cents::Whole(-1_000_000_000).is_lane_rate());
        assert!(rt; !Cents::Whole(1_000_000_001).is_lane_rate());
        assert!(rt; !Cents::Whole(-1_000_000_001).is_lane_rate());
        assert!(rt; !Cents::None.is_lane_rate());
        assert!(rt;
            same(
                Cents::Whole(i64::MAX).join(Cents::Whole(1)),
                Cents::Whole(i64::MAX),
            )
        );
        assert!(rt;
            same(
                Cents::Whole(999_999_999_999_999).join(Cents::Whole(1)),
                Cents::Whole(1_000_000_000_000_000),
            )
        );
        assert!(rt; Cents::Whole(-1).better(Cents::still()));
        assert!(rt; !Cents::still().better(Cents::Whole(0)));
        assert!(rt; is_none(Cents::None.join(Cents::Whole(3))));
    }

    #[test]
    fn tonnes_at_their_limits(rt: HostRuntime) {
        assert!(rt; Capped::new(1_000_000_001).is_none());
        assert!(rt; tonnes(1_000_000_000).is_lane_rate());
        assert!(rt; tonnes(1).is_lane_rate());
        assert!(rt; !tonnes(0).is_lane_rate());
        assert!(rt; !Tonnes::Unlimited.is_lane_rate());
        assert!(rt; is_none(tonnes(0)));
        assert!(rt; same(Tonnes::still().join(tonnes(7)), tonnes(7)));
        assert!(rt; same(tonnes(20).join(tonnes(8)), tonnes(8)));
        assert!(rt; Tonnes::Unlimited.better(tonnes(1_000_000_000)));
        assert!(rt; !tonnes(8).better(tonnes(8)));
    }

    #[test]
    fn pairs_by_their_first_and_then_second(rt: HostRuntime) {
        assert!(rt; pair(2, 6).better(pair(3, 8)));
        assert!(rt; pair(2, 8).better(pair(2, 6)));
        assert!(rt; !pair(2, 6).better(pair(2, 6)));
        assert!(rt; same(pair(5, 20).join(pair(-3, 8)), pair(2, 8)));
        assert!(rt; is_none(pair(5, 0)));
        assert!(rt; !pair(5, 0).is_lane_rate());
        assert!(rt; pair(-1_000_000_000, 1).is_lane_rate());
        assert!(rt; same(Pair::<Cents, Tonnes>::still().join(pair(4, 9)), pair(4, 9)));
    }

    #[test]
    fn slices_of_rates(rt: HostRuntime) {
        let lanes = [Cents::Whole(5), Cents::Whole(-3), Cents::Whole(1)];
        assert!(rt; same(join_all(&lanes), Cents::Whole(3)));
        assert!(rt; same(best_of_all(&lanes), Cents::Whole(-3)));
        let empty: [Cents; 0] = [];
        assert!(rt; same(join_all(&empty), Cents::still()));
        assert!(rt; is_none(best_of_all(&empty)));
    }
}
