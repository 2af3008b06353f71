// Fields of bodies from their bytes and back. Numbers are big-endian.
ghost use Rattle.std.specs.Prelude.{◌≡◌};
ghost use Rattle.tape.specs.Contents.{ends_bytes, lane_bytes, head_bytes};

use crate::contents::{Ends, HeadFields, LaneRate};

impl From<[u8; 4]> for Ends {
    ghost from_gives = { λ bytes e. ends_bytes e ≡ bytes };

    fn from(bytes: [u8; 4]) -> Ends {
        let [f0, f1, t0, t1] = bytes;
        Ends {
            from: u16::from_be_bytes([f0, f1]),
            to: u16::from_be_bytes([t0, t1]),
        }
    }
}

impl From<Ends> for [u8; 4] {
    ghost from_gives = { λ e bytes. bytes ≡ ends_bytes e };

    fn from(e: Ends) -> [u8; 4] {
        let [f0, f1] = e.from.to_be_bytes();
        let [t0, t1] = e.to.to_be_bytes();
        [f0, f1, t0, t1]
    }
}

impl From<[u8; 12]> for LaneRate {
    ghost from_gives = { λ bytes l. lane_bytes l ≡ bytes };

    fn from(bytes: [u8; 12]) -> LaneRate {
        let [f0, f1, t0, t1, c0, c1, c2, c3, n0, n1, n2, n3] = bytes;
        LaneRate {
            ends: Ends::from([f0, f1, t0, t1]),
            cents: i32::from_be_bytes([c0, c1, c2, c3]),
            tonnes: u32::from_be_bytes([n0, n1, n2, n3]),
        }
    }
}

impl From<LaneRate> for [u8; 12] {
    ghost from_gives = { λ l bytes. bytes ≡ lane_bytes l };

    fn from(l: LaneRate) -> [u8; 12] {
        let [f0, f1, t0, t1] = <[u8; 4]>::from(l.ends);
        let [c0, c1, c2, c3] = l.cents.to_be_bytes();
        let [n0, n1, n2, n3] = l.tonnes.to_be_bytes();
        [f0, f1, t0, t1, c0, c1, c2, c3, n0, n1, n2, n3]
    }
}

impl From<[u8; 11]> for HeadFields {
    ghost from_gives = { λ bytes h. head_bytes h ≡ bytes };

    fn from(bytes: [u8; 11]) -> HeadFields {
        let [rate_kind, b0, b1, b2, b3, t0, t1, m0, m1, m2, m3] = bytes;
        HeadFields {
            rate_kind,
            book: u32::from_be_bytes([b0, b1, b2, b3]),
            terminals: u16::from_be_bytes([t0, t1]),
            meter: u32::from_be_bytes([m0, m1, m2, m3]),
        }
    }
}

impl From<HeadFields> for [u8; 11] {
    ghost from_gives = { λ h bytes. bytes ≡ head_bytes h };

    fn from(h: HeadFields) -> [u8; 11] {
        let [b0, b1, b2, b3] = h.book.to_be_bytes();
        let [t0, t1] = h.terminals.to_be_bytes();
        let [m0, m1, m2, m3] = h.meter.to_be_bytes();
        [h.rate_kind, b0, b1, b2, b3, t0, t1, m0, m1, m2, m3]
    }
}
