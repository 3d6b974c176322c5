// Tests of crates `functions`, `classes` and `waveform`: round trips over all codes, printed texts, and tables of gates.
#![tactic(auto)]

#[cfg(test)]
mod tests {
    use classes::{Class, Three, UnknownLetters};
    use functions::{Function, UnknownName};
    use std::test::Fail;
    use waveform::evaluate;

    #[test]
    fn functions_by_code_and_name(rt: HostRuntime) -> Result<(), Fail> {
        for code in 0..8u8 {
            let function = Function::try_from(code)?;
            assert_eq!(rt; function.code(), code);
            assert_eq!(rt; u8::from(function), code);
            assert_eq!(rt; function.name().parse(), Ok(function));
        }
        assert_eq!(rt; Function::try_from(8), Err(functions::UnknownCode(8)));
        assert_eq!(rt; "and".parse::<Function>(), Err(UnknownName));
        Ok(())
    }

    #[test]
    fn classes_by_code_and_letters(rt: HostRuntime) -> Result<(), Fail> {
        for code in 0..13u8 {
            let class = Class::try_from(code)?;
            assert_eq!(rt; class.code(), code);
            assert_eq!(rt; u8::from(class), code);
            assert_eq!(rt; class.letters().parse(), Ok(class));
            assert_eq!(rt;
                class.letters().chars().next(),
                Some(class.start().letter())
            );
            assert_eq!(rt; class.letters().chars().last(), Some(class.end().letter()));
        }
        assert_eq!(rt; Class::try_from(13), Err(classes::UnknownCode(13)));
        assert_eq!(rt; "0R0".parse::<Class>(), Err(UnknownLetters));
        Ok(())
    }

    #[test]
    fn texts_of_values_and_refusals(rt: HostRuntime) -> Result<(), Fail> {
        let (function, class, value) = (Function::Nand, Class::C0R1, Three::Unknown);
        let values = format!(in rt.alloc(); "{function} {class} {value}")?;
        assert_eq!(rt; &*values, "NAND 0R1 X");
        let (code, name) = (functions::UnknownCode(8), UnknownName);
        let of_functions = format!(in rt.alloc(); "{code}, {name}")?;
        assert_eq!(rt;
            &*of_functions,
            "no gate function has code 8, no gate function has this name"
        );
        let (code, letters) = (classes::UnknownCode(13), UnknownLetters);
        let of_classes = format!(in rt.alloc(); "{code}, {letters}")?;
        assert_eq!(rt;
            &*of_classes,
            "no class has code 13, no class has these letters"
        );
        Ok(())
    }

    #[test]
    fn gates_of_two_pins(rt: HostRuntime) -> Result<(), Fail> {
        let gates = [
            ("AND", "0R1", "1F0", "0X0"),
            ("OR", "0R1", "1F0", "1X1"),
            ("XOR", "0R1", "1F0", "1X1"),
            ("NOR", "0R1", "0R1", "1F0"),
            ("XNOR", "111", "0X1", "0X1"),
            ("NAND", "000", "XXX", "111"),
            ("OR", "1XX", "XX1", "1X1"),
        ];
        for (name, left, right, out) in gates {
            let function = name.parse::<Function>()?;
            let pins = [left.parse::<Class>()?, right.parse::<Class>()?];
            assert_eq!(rt; evaluate(function, &pins).letters(), out);
        }
        Ok(())
    }

    #[test]
    fn gates_of_no_pin_and_of_three(rt: HostRuntime) {
        let none: [Class; 0] = [];
        assert_eq!(rt; evaluate(Function::And, &none), Class::C111);
        assert_eq!(rt; evaluate(Function::Nor, &none), Class::C111);
        let pins = [Three::One, Three::Unknown, Three::Zero];
        assert_eq!(rt; evaluate(Function::Nand, &pins), Three::One);
        assert_eq!(rt; evaluate(Function::Or, &pins), Three::One);
        assert_eq!(rt; evaluate(Function::Xor, &pins), Three::Unknown);
    }
}
