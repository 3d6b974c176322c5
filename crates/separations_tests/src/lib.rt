// Tests of the crate separations on examples.
#![tactic(auto)]

#[cfg(test)]
mod tests {
    use separations::{SeparationFault, Separations};

    // 0 for an acceptance, else the number of the refusal, as the cases below have them.
    fn number(answer: Result<(), SeparationFault>) -> u8 {
        answer.err().map_or(0, |fault| fault.refusal().number)
    }

    #[test]
    fn larger_spacing_is_kept(rt: HostRuntime) {
        let mut held = Separations::new();
        assert_eq!(rt; number(held.hold(2, 7, -65_535)), 0);
        assert_eq!(rt; held.get(2, 7), Some(-65_535));
        assert_eq!(rt; number(held.hold(2, 7, 40)), 0);
        assert_eq!(rt; number(held.hold(2, 7, 30)), 0);
        assert_eq!(rt; held.get(2, 7), Some(40));
        assert_eq!(rt; held.get(7, 2), None);
        held.clear();
        assert_eq!(rt; held.get(2, 7), None);
    }

    #[test]
    fn refusals_come_in_order(rt: HostRuntime) {
        let mut held = Separations::new();
        assert_eq!(rt; number(held.hold(16, 200, 0)), 9);
        assert_eq!(rt; number(held.hold(3, 3, 0)), 13);
        assert_eq!(rt; number(held.hold(3, 4, 65_536)), 13);
        assert_eq!(rt; number(held.hold(3, 4, -65_536)), 13);
        assert_eq!(rt; number(held.hold(3, 4, i32::MIN)), 13);
        assert_eq!(rt; number(held.hold(3, 4, 65_535)), 0);
        assert_eq!(rt; held.get(3, 16), None);
    }

    #[test]
    fn circle_is_contradictory(rt: HostRuntime) {
        let mut held = Separations::new();
        for i in 0..15u8 {
            assert_eq!(rt; number(held.hold(i, i + 1, 65_535)), 0);
        }
        assert_eq!(rt; number(held.hold(15, 0, 65_535)), 14);
        assert_eq!(rt; number(held.hold(15, 0, 0)), 14);
        assert_eq!(rt; number(held.hold(15, 1, -65_535)), 14);
        assert_eq!(rt; number(held.hold(1, 0, -65_535)), 0);
        assert_eq!(rt; number(held.hold(1, 0, -65_534)), 14);
        assert_eq!(rt; held.get(1, 0), Some(-65_535));
    }

    #[test]
    fn held_come_in_order(rt: HostRuntime) {
        let mut held = Separations::new();
        assert_eq!(rt; number(held.hold(15, 14, -7)), 0);
        assert_eq!(rt; number(held.hold(2, 7, 40)), 0);
        assert_eq!(rt; number(held.hold(0, 15, -3)), 0);
        assert_eq!(rt; number(held.hold(2, 1, 9)), 0);
        let mut given = held.iter();
        assert_eq!(rt; given.next(), Some((0, 15, -3)));
        assert_eq!(rt; given.next(), Some((2, 1, 9)));
        assert_eq!(rt; given.next(), Some((2, 7, 40)));
        assert_eq!(rt; given.next(), Some((15, 14, -7)));
        assert_eq!(rt; given.next(), None);
        let mut total = 0i64;
        for (_, _, s) in held.iter() {
            total = total.wrapping_add(i64::from(s));
        }
        assert_eq!(rt; total, 39);
    }
}
