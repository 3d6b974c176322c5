// Circuit files, accepted and refused: worked cases as tables.
#![tactic(auto)]

#[cfg(test)]
mod tests {
    use session::line::circuit_line;
    use std::alloc::Global;
    use std::process::Abort;
    use std::test::Fail;

    // two inputs; NOT of 0 at place 6, BUF of 0 at place 16, AND of 2 and 3 at place 26
    const BASE: [u8; 37] = [
        2, 0, 1, 0, 2, 3, 6, 0, 2, 0, 1, 1, 0, 2, 0, 0, 6, 0, 2, 0, 0, 4, 0, 6, 0, 0, 7, 0, 2, 0,
        2, 1, 0, 1, 0, 2, 3,
    ];

    // one byte of the base changed, and the line that must come
    struct Case {
        at: usize,
        value: u8,
        line: &'static str,
    }

    const CASES: [Case; 29] = [
        Case {
            at: 36,
            value: 3,
            line: "circuit 2 3 37",
        },
        Case {
            at: 4,
            value: 0,
            line: "no 6 C 0",
        },
        Case {
            at: 4,
            value: 17,
            line: "no 6 C 0",
        },
        Case {
            at: 5,
            value: 241,
            line: "no 6 C 0",
        },
        Case {
            at: 2,
            value: 2,
            line: "no 4 C 0",
        },
        Case {
            at: 3,
            value: 1,
            line: "no 4 C 0",
        },
        Case {
            at: 0,
            value: 3,
            line: "no 5 C 0",
        },
        Case {
            at: 8,
            value: 1,
            line: "no 4 C 6",
        },
        Case {
            at: 18,
            value: 3,
            line: "no 4 C 16",
        },
        Case {
            at: 29,
            value: 1,
            line: "no 4 C 26",
        },
        Case {
            at: 6,
            value: 5,
            line: "no 5 C 6",
        },
        Case {
            at: 16,
            value: 14,
            line: "no 5 C 16",
        },
        Case {
            at: 26,
            value: 5,
            line: "no 5 C 26",
        },
        Case {
            at: 7,
            value: 1,
            line: "no 3 R 6",
        },
        Case {
            at: 10,
            value: 8,
            line: "no 7 C 6",
        },
        Case {
            at: 20,
            value: 255,
            line: "no 7 C 16",
        },
        Case {
            at: 30,
            value: 8,
            line: "no 7 C 26",
        },
        Case {
            at: 10,
            value: 2,
            line: "no 8 C 6",
        },
        Case {
            at: 20,
            value: 7,
            line: "no 8 C 16",
        },
        Case {
            at: 30,
            value: 0,
            line: "no 8 C 26",
        },
        Case {
            at: 30,
            value: 1,
            line: "no 8 C 26",
        },
        Case {
            at: 15,
            value: 2,
            line: "no 9 C 6",
        },
        Case {
            at: 25,
            value: 3,
            line: "no 9 C 16",
        },
        Case {
            at: 35,
            value: 4,
            line: "no 9 C 26",
        },
        Case {
            at: 36,
            value: 255,
            line: "no 9 C 26",
        },
        Case {
            at: 11,
            value: 3,
            line: "no 11 C 6",
        },
        Case {
            at: 22,
            value: 1,
            line: "no 11 C 16",
        },
        Case {
            at: 32,
            value: 1,
            line: "no 11 C 26",
        },
        Case {
            at: 26,
            value: 8,
            line: "no 3 R 26",
        },
    ];

    // The file's line is this one.
    fn expect(rt: &impl Abort, heap: Global, bytes: &[u8], line: &str) -> Result<(), Fail> {
        let told = circuit_line(heap, bytes)?;
        let text = format!(in heap; "{told}")?;
        assert_eq!(rt; text.as_str(), line);
        Ok(())
    }

    #[test]
    fn one_byte_changed(rt: HostRuntime) -> Result<(), Fail> {
        for case in &CASES {
            let mut bytes = BASE;
            assert!(rt; case.at < 37);
            bytes[case.at] = case.value;
            expect(&rt, rt.alloc(), &bytes, case.line)?;
        }
        Ok(())
    }

    #[test]
    fn cut_at_every_byte(rt: HostRuntime) -> Result<(), Fail> {
        for n in 0usize..37 {
            let line = match n {
                0..6 => "no 3 R 0",
                6..16 => "no 3 R 6",
                16..26 => "no 3 R 16",
                _ => "no 3 R 26",
            };
            expect(&rt, rt.alloc(), &BASE[0..n], line)?;
        }
        expect(&rt, rt.alloc(), &BASE, "circuit 2 3 37")
    }

    #[test]
    fn bytes_past_the_gates_are_not_looked_at(rt: HostRuntime) -> Result<(), Fail> {
        expect(&rt, rt.alloc(), &[2, 0, 1, 0, 1, 0], "circuit 1 0 6")?;
        expect(
            &rt,
            rt.alloc(),
            &[2, 0, 1, 0, 1, 0, 255, 255, 9],
            "circuit 1 0 6",
        )
    }

    // A head for 16 inputs and so many gates, then 240 gates that each repeat the net before their own.
    fn largest(heap: Global, announced: u8) -> Result<Vec<u8>, Fail> {
        let mut bytes = Vec::new(heap);
        bytes.extend_from_slice(&[2, 0, 1, 0, 16, announced])?;
        for pin in 15u8..255 {
            bytes.extend_from_slice(&[6, 0, 2, 0, 0, 1, 0, 2, 0, pin])?;
        }
        Ok(bytes)
    }

    #[test]
    fn the_largest_circuit(rt: HostRuntime) -> Result<(), Fail> {
        let bytes = largest(rt.alloc(), 240)?;
        expect(&rt, rt.alloc(), bytes.as_slice(), "circuit 16 240 2406")?;
        let more = largest(rt.alloc(), 241)?;
        expect(&rt, rt.alloc(), more.as_slice(), "no 6 C 0")
    }

    // A record of 65,535 bytes is read whole before its size is refused, and one byte less is cut short.
    #[test]
    fn the_longest_record(rt: HostRuntime) -> Result<(), Fail> {
        let mut bytes = Vec::new(rt.alloc());
        bytes.extend_from_slice(&[2, 0, 1, 0, 1, 1, 255, 255, 2, 0])?;
        bytes.resize(10 + 65_534, 0)?;
        expect(&rt, rt.alloc(), bytes.as_slice(), "no 3 R 6")?;
        bytes.push(0)?;
        expect(&rt, rt.alloc(), bytes.as_slice(), "no 5 C 6")
    }
}
