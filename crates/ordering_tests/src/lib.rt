// Tests of the order sources on a small circuit: inputs 0 and 1, then buffers 2 and 3 of input 0 and 4 of input 1, and gate 5,
// a conjunction of 2 and 3.
#![tactic(auto)]

#[cfg(test)]
mod tests {
    use classes::Class;
    use netlist::Circuit;
    use ordering::{Chain, OrderSource, SameInput, Silent, Spaced, Stem, ordered};
    use runs::row::{INPUTS, PINS};
    use runs::{Bounds, Row};
    use std::alloc::Global;
    use std::test::Fail;

    // the circuit file: buffers of 1 to 2, 5 to 6 and 7 to 9 ticks, and a conjunction of 3 ticks
    const FILE: [u8; 47] = [
        2, 0, 1, 0, 2, 4, 6, 0, 2, 0, 0, 1, 0, 2, 0, 0, 6, 0, 2, 0, 0, 5, 0, 6, 0, 0, 6, 0, 2, 0,
        0, 7, 0, 9, 0, 1, 7, 0, 2, 0, 2, 3, 0, 3, 0, 2, 3,
    ];

    // The circuit of the file.
    fn small(heap: Global) -> Result<Circuit, Fail> {
        match Circuit::read(heap, &FILE) {
            Ok((circuit, _)) => Ok(circuit),
            Err(_) => Err(Fail::new("no circuit")),
        }
    }

    // A row without bounds.
    fn unbounded(class: Class) -> Row {
        Row {
            class,
            bounds: [None; INPUTS],
            held: [None; PINS],
        }
    }

    // A row with bounds from one input.
    fn row(class: Class, input: usize, lo: u32, hi: u32) -> Row {
        let mut row = unbounded(class);
        if let Some(bounds) = row.bounds.get_mut(input) {
            *bounds = Some(Bounds { lo, hi });
        }
        row
    }

    // The rows of the circuit where both inputs rise once.
    fn rising() -> [Row; 6] {
        [
            row(Class::C0R1, 0, 0, 0),
            row(Class::C0R1, 1, 0, 0),
            row(Class::C0R1, 0, 1, 2),
            row(Class::C0R1, 0, 5, 6),
            row(Class::C0R1, 1, 7, 9),
            row(Class::C0R1, 0, 4, 9),
        ]
    }

    // 0 for an acceptance, else the number of the refusal, as the cases below have them.
    fn number<S: OrderSource>(source: &mut S, a: u8, b: u8, s: i32) -> u8 {
        match source.separate(a, b, s) {
            Ok(()) => 0,
            Err(fault) => fault.refusal().number,
        }
    }

    #[test]
    fn silent_says_nothing(rt: HostRuntime) -> Result<(), Fail> {
        let circuit = small(rt.alloc())?;
        let mut source = Silent;
        assert_eq!(rt; number(&mut source, 0, 1, 5), 12);
        assert_eq!(rt; number(&mut source, 16, 1, 5), 9);
        assert_eq!(rt; ordered(&source, &circuit, &rising(), 2, 3), false);
        Ok(())
    }

    #[test]
    fn same_input_orders_by_bounds(rt: HostRuntime) -> Result<(), Fail> {
        let circuit = small(rt.alloc())?;
        let mut rows = rising();
        assert_eq!(rt; ordered(&SameInput, &circuit, &rows, 2, 3), true);
        assert_eq!(rt; ordered(&SameInput, &circuit, &rows, 3, 2), false);
        assert_eq!(rt; ordered(&SameInput, &circuit, &rows, 2, 4), false);
        rows[3] = row(Class::C0R1, 0, 2, 6);
        assert_eq!(rt;
            ordered(&SameInput, &circuit, &rows, 2, 3),
            false,
            "equal bounds"
        );
        rows[3] = row(Class::C0R1, 0, 3, 6);
        assert_eq!(rt; ordered(&SameInput, &circuit, &rows, 2, 3), true);
        rows[0] = row(Class::C0X1, 0, 0, 0);
        assert_eq!(rt;
            ordered(&SameInput, &circuit, &rows, 2, 3),
            false,
            "an input that is not clean"
        );
        Ok(())
    }

    #[test]
    fn rows_that_are_not_there(rt: HostRuntime) -> Result<(), Fail> {
        let circuit = small(rt.alloc())?;
        let rows = rising();
        assert_eq!(rt; ordered(&SameInput, &circuit, &rows[0..4], 2, 3), true);
        assert_eq!(rt; ordered(&SameInput, &circuit, &rows[0..3], 2, 3), false);
        assert_eq!(rt; ordered(&SameInput, &circuit, &rows, 2, 200), false);
        assert_eq!(rt;
            ordered(&SameInput, &circuit, &[row(Class::C0R1, 0, 1, 2); 9], 2, 8),
            false
        );
        Ok(())
    }

    #[test]
    fn spaced_orders_by_separations(rt: HostRuntime) -> Result<(), Fail> {
        let circuit = small(rt.alloc())?;
        let rows = rising();
        let mut source = Spaced::new();
        assert_eq!(rt; ordered(&source, &circuit, &rows, 2, 3), true);
        assert_eq!(rt; ordered(&source, &circuit, &rows, 3, 4), false);
        assert_eq!(rt; number(&mut source, 0, 1, -1), 0);
        assert_eq!(rt;
            ordered(&source, &circuit, &rows, 3, 4),
            false,
            "6 is not below 7 - 1"
        );
        assert_eq!(rt; number(&mut source, 0, 1, 0), 0);
        assert_eq!(rt; ordered(&source, &circuit, &rows, 3, 4), true);
        assert_eq!(rt; number(&mut source, 1, 0, 1), 14);
        assert_eq!(rt; source.spacing(0, 1), Some(0));
        source.clear();
        assert_eq!(rt; ordered(&source, &circuit, &rows, 3, 4), false);
        Ok(())
    }

    #[test]
    fn chain_goes_through_clean_nets(rt: HostRuntime) -> Result<(), Fail> {
        let circuit = small(rt.alloc())?;
        let mut rows = rising();
        rows[5] = row(Class::C0X1, 2, 20, 30);
        let mut source = Chain {
            below: Spaced::new(),
        };
        assert_eq!(rt; number(&mut source, 0, 1, 0), 0);
        assert_eq!(rt; number(&mut source, 1, 2, 0), 0);
        assert_eq!(rt; ordered(&source.below, &circuit, &rows, 2, 4), true);
        assert_eq!(rt; ordered(&source.below, &circuit, &rows, 4, 5), true);
        assert_eq!(rt;
            ordered(&source.below, &circuit, &rows, 2, 5),
            false,
            "0 and 2 have no separation of their own"
        );
        assert_eq!(rt; ordered(&source, &circuit, &rows, 2, 5), true, "through 4");
        rows[4] = row(Class::C0X0, 1, 7, 9);
        assert_eq!(rt;
            ordered(&source, &circuit, &rows, 2, 5),
            false,
            "4 is not clean"
        );
        Ok(())
    }

    #[test]
    fn stem_ties_nets(rt: HostRuntime) -> Result<(), Fail> {
        let circuit = small(rt.alloc())?;
        let mut rows = [unbounded(Class::C0R1); 6];
        let source = Stem { below: Silent };
        assert_eq!(rt; ordered(&source, &circuit, &rows, 2, 3), true);
        assert_eq!(rt; ordered(&source, &circuit, &rows, 3, 2), false);
        assert_eq!(rt; ordered(&source, &circuit, &rows, 0, 5), true);
        assert_eq!(rt; ordered(&source, &circuit, &rows, 2, 4), false);
        assert_eq!(rt;
            ordered(&source, &circuit, &rows, 3, 5),
            false,
            "5 comes 4 ticks after 0 at the least"
        );
        rows[5].held[0] = Some(true);
        assert_eq!(rt;
            ordered(&source, &circuit, &rows, 3, 5),
            true,
            "pin 0 is held, so 5 comes 8 ticks after 0"
        );
        rows[0] = unbounded(Class::C0X1);
        rows[3] = unbounded(Class::C000);
        assert_eq!(rt; ordered(&source, &circuit, &rows, 3, 5), false);
        Ok(())
    }

    #[test]
    fn spaced_uses_no_implied_separation(rt: HostRuntime) -> Result<(), Fail> {
        let circuit = small(rt.alloc())?;
        let mut rows = rising();
        rows[4] = row(Class::C0R1, 2, 7, 9);
        let mut source = Spaced::new();
        assert_eq!(rt; number(&mut source, 0, 1, 10), 0);
        assert_eq!(rt; number(&mut source, 1, 2, 10), 0);
        assert_eq!(rt;
            ordered(&source, &circuit, &rows, 3, 4),
            false,
            "0 and 2 are 20 apart, but not held so"
        );
        assert_eq!(rt; number(&mut source, 0, 2, 0), 0);
        assert_eq!(rt; ordered(&source, &circuit, &rows, 3, 4), true);
        Ok(())
    }

    #[test]
    fn layers_take_what_is_below(rt: HostRuntime) {
        assert_eq!(rt; <Chain<Stem<Spaced>> as OrderSource>::TAKES, true);
        assert_eq!(rt; <Stem<Chain<SameInput>> as OrderSource>::TAKES, false);
        assert_eq!(rt; <Stem<Silent> as OrderSource>::TAKES, false);
    }
}
