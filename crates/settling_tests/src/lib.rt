// Settling and rest on small circuits and on the largest one, over stem over chain over spaced.
#![tactic(auto)]

#[cfg(test)]
mod tests {
    use classes::Class;
    use netlist::Circuit;
    use ordering::{Chain, OrderSource, Spaced, Stem};
    use runs::Row;
    use settling::{NoSuchInput, Tables, rest, settle};
    use std::alloc::{AllocError, Global};
    use std::process::Abort;
    use std::test::Fail;

    // One more gate record: function code, least and greatest delay, pins.
    fn put_gate(
        bytes: &mut Vec<u8>,
        code: u8,
        least: u16,
        greatest: u16,
        pins: &[u8],
    ) -> Result<(), AllocError> {
        let size = (pins.len().min(250) as u8) + 5;
        let [least_low, least_high] = least.to_le_bytes();
        let [greatest_low, greatest_high] = greatest.to_le_bytes();
        bytes.extend_from_slice(&[size, 0, 2, 0, code])?;
        bytes.extend_from_slice(&[least_low, least_high, greatest_low, greatest_high])?;
        bytes.extend_from_slice(pins)
    }

    // The tables of the circuit in these bytes.
    fn loaded(heap: Global, bytes: &[u8]) -> Result<Tables, Fail> {
        match Circuit::read(heap, bytes) {
            Ok((circuit, _)) => Ok(Tables::new(heap, circuit)?),
            Err(_) => Err(Fail::new("no circuit")),
        }
    }

    fn pile() -> Stem<Chain<Spaced>> {
        Stem {
            below: Chain {
                below: Spaced::new(),
            },
        }
    }

    // The net's row has this class, these bounds from input 0, and these pins held.
    fn expect(
        rt: &impl Abort,
        rows: &[Row],
        net: usize,
        letters: &str,
        bounds: Option<(u32, u32)>,
        held: [Option<bool>; 2],
    ) {
        assert!(rt; net < rows.len());
        let row = rows[net];
        assert_eq!(rt; row.class.letters(), letters);
        let told = row.bounds[0].map(|b| (b.lo, b.hi));
        assert_eq!(rt; told, bounds);
        assert_eq!(rt; row.held[0], held[0]);
        assert_eq!(rt; row.held[1], held[1]);
    }

    // NOT of 0 and BUF of 0 meet at an AND; the BUF has this least delay.
    fn strobe(rt: &impl Abort, heap: Global, least: u16) -> Result<Tables, Fail> {
        let mut bytes = Vec::new(heap);
        bytes.extend_from_slice(&[2, 0, 1, 0, 2, 3])?;
        put_gate(&mut bytes, 1, 1, 2, &[0])?;
        put_gate(&mut bytes, 0, least, 6, &[0])?;
        put_gate(&mut bytes, 2, 1, 1, &[2, 3])?;
        let mut tables = loaded(heap, bytes.as_slice())?;
        assert!(rt; tables.stimulate(0, Class::C0R1).is_ok());
        assert!(rt; tables.stimulate(1, Class::C000).is_ok());
        Ok(tables)
    }

    #[test]
    fn the_strobe_is_silenced_by_order(rt: HostRuntime) -> Result<(), Fail> {
        let source = pile();
        let mut tables = strobe(&rt, rt.alloc(), 4)?;
        settle(&mut tables, &source);
        expect(
            &rt,
            tables.rows(),
            4,
            "000",
            None,
            [Some(false), Some(false)],
        );
        assert!(rt; tables.order(&source, 2, 3));
        assert!(rt; !tables.order(&source, 3, 2));
        let mut near = strobe(&rt, rt.alloc(), 2)?;
        settle(&mut near, &source);
        expect(&rt, near.rows(), 4, "0X0", Some((2, 7)), [None, None]);
        assert!(rt; !near.order(&source, 2, 3));
        Ok(())
    }

    #[test]
    fn rest_is_told_without_settling(rt: HostRuntime) -> Result<(), Fail> {
        let tables = strobe(&rt, rt.alloc(), 4)?;
        let (start, end) = rest(&tables, 2).ok_or("no net")?;
        assert_eq!(rt; start.number(), 1);
        assert_eq!(rt; end.number(), 0);
        let (low, still_low) = rest(&tables, 4).ok_or("no net")?;
        assert_eq!(rt; low.number(), 0);
        assert_eq!(rt; still_low.number(), 0);
        assert!(rt; rest(&tables, 5).is_none());
        Ok(())
    }

    // Two BUFs of one falling input with these delays, and a gate of this function over them.
    fn twins(
        rt: &impl Abort,
        heap: Global,
        first: u16,
        second: u16,
        code: u8,
    ) -> Result<Tables, Fail> {
        let mut bytes = Vec::new(heap);
        bytes.extend_from_slice(&[2, 0, 1, 0, 1, 3])?;
        put_gate(&mut bytes, 0, first, first, &[0])?;
        put_gate(&mut bytes, 0, second, second, &[0])?;
        put_gate(&mut bytes, code, 0, 0, &[1, 2])?;
        let mut tables = loaded(heap, bytes.as_slice())?;
        assert!(rt; tables.stimulate(0, Class::C1F0).is_ok());
        settle(&mut tables, &pile());
        Ok(tables)
    }

    #[test]
    fn equal_times_are_not_ordered(rt: HostRuntime) -> Result<(), Fail> {
        let equal = twins(&rt, rt.alloc(), 1, 1, 2)?;
        expect(&rt, equal.rows(), 3, "1F0", Some((1, 1)), [None, None]);
        let apart = twins(&rt, rt.alloc(), 1, 2, 2)?;
        expect(
            &rt,
            apart.rows(),
            3,
            "1F0",
            Some((1, 1)),
            [None, Some(true)],
        );
        let zero = twins(&rt, rt.alloc(), 0, 0, 2)?;
        expect(&rt, zero.rows(), 3, "1F0", Some((0, 0)), [None, None]);
        // OR is controlled by 1, at which both start: the earlier one is held at its end
        let or = twins(&rt, rt.alloc(), 1, 2, 4)?;
        expect(&rt, or.rows(), 3, "1F0", Some((2, 2)), [Some(false), None]);
        // an XOR holds no pin
        let xor = twins(&rt, rt.alloc(), 1, 2, 6)?;
        expect(&rt, xor.rows(), 3, "0X0", Some((1, 2)), [None, None]);
        Ok(())
    }

    #[test]
    fn one_net_twice_is_not_narrowed(rt: HostRuntime) -> Result<(), Fail> {
        let mut bytes = Vec::new(rt.alloc());
        bytes.extend_from_slice(&[2, 0, 1, 0, 1, 1])?;
        put_gate(&mut bytes, 6, 1, 1, &[0, 0])?;
        let mut tables = loaded(rt.alloc(), bytes.as_slice())?;
        assert!(rt; tables.stimulate(0, Class::C0R1).is_ok());
        settle(&mut tables, &pile());
        expect(&rt, tables.rows(), 1, "0X0", Some((1, 1)), [None, None]);
        Ok(())
    }

    // An input that stays at 1 neither holds nor hides the other pin; one that stays at 0 decides the gate.
    #[test]
    fn a_pin_that_never_flips(rt: HostRuntime) -> Result<(), Fail> {
        let mut bytes = Vec::new(rt.alloc());
        bytes.extend_from_slice(&[2, 0, 1, 0, 2, 1])?;
        put_gate(&mut bytes, 2, 3, 4, &[0, 1])?;
        let mut tables = loaded(rt.alloc(), bytes.as_slice())?;
        assert!(rt; tables.stimulate(0, Class::C0R1).is_ok());
        assert!(rt; tables.stimulate(1, Class::C111).is_ok());
        settle(&mut tables, &pile());
        expect(&rt, tables.rows(), 2, "0R1", Some((3, 4)), [None, None]);
        assert!(rt; tables.stimulate(1, Class::C000).is_ok());
        settle(&mut tables, &pile());
        expect(&rt, tables.rows(), 2, "000", None, [None, None]);
        // a number that is no input is refused
        let refused = tables.stimulate(2, Class::C111);
        assert_eq!(rt; refused, Err(NoSuchInput { input: 2 }));
        Ok(())
    }

    // The first pin holds the second and is itself held, by the third.
    #[test]
    fn a_holder_that_is_held(rt: HostRuntime) -> Result<(), Fail> {
        let mut bytes = Vec::new(rt.alloc());
        bytes.extend_from_slice(&[2, 0, 1, 0, 1, 4])?;
        put_gate(&mut bytes, 0, 1, 1, &[0])?;
        put_gate(&mut bytes, 0, 3, 3, &[0])?;
        put_gate(&mut bytes, 1, 5, 5, &[0])?;
        put_gate(&mut bytes, 2, 1, 2, &[2, 3, 1])?;
        let mut tables = loaded(rt.alloc(), bytes.as_slice())?;
        assert!(rt; tables.stimulate(0, Class::C1F0).is_ok());
        settle(&mut tables, &pile());
        expect(
            &rt,
            tables.rows(),
            4,
            "000",
            None,
            [Some(true), Some(false)],
        );
        Ok(())
    }

    // Two falling inputs: the later one is held once a separation orders them.
    #[test]
    fn a_separation_orders_two_inputs(rt: HostRuntime) -> Result<(), Fail> {
        let mut bytes = Vec::new(rt.alloc());
        bytes.extend_from_slice(&[2, 0, 1, 0, 2, 1])?;
        put_gate(&mut bytes, 2, 1, 1, &[0, 1])?;
        let mut tables = loaded(rt.alloc(), bytes.as_slice())?;
        assert!(rt; tables.stimulate(0, Class::C1F0).is_ok());
        assert!(rt; tables.stimulate(1, Class::C1F0).is_ok());
        let mut source = pile();
        settle(&mut tables, &source);
        expect(&rt, tables.rows(), 2, "1F0", Some((1, 1)), [None, None]);
        assert!(rt; source.separate(0, 1, 1).is_ok());
        settle(&mut tables, &source);
        expect(
            &rt,
            tables.rows(),
            2,
            "1F0",
            Some((1, 1)),
            [None, Some(true)],
        );
        Ok(())
    }

    // Sixteen inputs and 240 gates of eight pins, each gate repeating the net before its own by the longest delay.
    #[test]
    fn the_largest_bounds(rt: HostRuntime) -> Result<(), Fail> {
        let mut bytes = Vec::new(rt.alloc());
        bytes.extend_from_slice(&[2, 0, 1, 0, 16, 240])?;
        for pin in 15u8..255 {
            let from = if pin == 15 { 0 } else { pin };
            put_gate(&mut bytes, 4, 65_535, 65_535, &[from; 8])?;
        }
        let mut tables = loaded(rt.alloc(), bytes.as_slice())?;
        assert!(rt; tables.stimulate(0, Class::C0R1).is_ok());
        settle(&mut tables, &pile());
        expect(
            &rt,
            tables.rows(),
            255,
            "0R1",
            Some((15_728_400, 15_728_400)),
            [None, None],
        );
        Ok(())
    }
}
