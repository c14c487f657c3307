// Lines of a script and their answers, run as examples.
#![tactic(auto)]

#[cfg(test)]
mod tests {
    use replies::{HELP, reply};
    use session::Session;
    use std::alloc::Global;
    use std::test::Fail;

    // The last answer of a script.
    fn last_answer(heap: Global, script: &str) -> Result<String, Fail> {
        let mut session = Session::new(heap);
        let mut answer = String::new(heap);
        for (number, line) in (1..=u64::MAX).zip(script.split('\n')) {
            answer = reply(heap, &mut session, number, line.as_bytes())?;
        }
        Ok(answer)
    }

    // Whether that is the last answer of a script.
    fn answers(heap: Global, script: &str, expected: &str) -> Result<bool, Fail> {
        let answer = last_answer(heap, script)?;
        Ok(answer.as_str() == expected)
    }

    #[test]
    fn help_and_remarks(rt: HostRuntime) -> Result<(), Fail> {
        let heap = rt.alloc();
        assert!(rt; answers(heap, "help", HELP)?);
        assert!(rt; answers(heap, "", "")?);
        assert!(rt; answers(heap, " \t\r", "")?);
        assert!(rt; answers(heap, "# combine 1", "")?);
        Ok(())
    }

    #[test]
    fn malformed_lines_have_their_number(rt: HostRuntime) -> Result<(), Fail> {
        let heap = rt.alloc();
        let mut session = Session::new(heap);
        let bytes = reply(heap, &mut session, 3, b"\xff\x00")?;
        assert!(rt; bytes.as_str().starts_with("line 3: "));
        let number = last_answer(heap, "\n\ncombine 4294967296")?;
        assert!(rt; number.as_str().starts_with("line 3: "));
        let word = last_answer(heap, "help me")?;
        assert!(rt; word.as_str().starts_with("line 1: "));
        Ok(())
    }

    #[test]
    fn three_lists_stand_on_one_another(rt: HostRuntime) -> Result<(), Fail> {
        let heap = rt.alloc();
        assert!(rt;
            answers(
                heap,
                "lower 1 3 5\ncombine 2 0",
                "[5, 1]: (past the schema), (past the schema)"
            )?
        );
        let fields = "text ab\nfield a 1\nfield b 2\nlower 1 0 9\ncombine 2 0\ncombine 1 1 0";
        assert!(rt; answers(heap, fields, "[1, 1, 9]: b, b, (past the schema)")?);
        Ok(())
    }

    #[test]
    fn the_greatest_index_is_refused(rt: HostRuntime) -> Result<(), Fail> {
        let answer = last_answer(rt.alloc(), "lower 7\ncombine 0 4294967295")?;
        assert!(rt; answer.as_str().starts_with("refused (11) at 1: "));
        Ok(())
    }

    #[test]
    fn an_output_is_full_or_too_short(rt: HostRuntime) -> Result<(), Fail> {
        let heap = rt.alloc();
        assert!(rt;
            answers(
                heap,
                "lower absent\ncombine 0 0 into 2",
                "[0, 0]: (past the schema), (past the schema)"
            )?
        );
        let short = last_answer(heap, "lower absent\ncombine 0 0 into 1")?;
        assert!(rt; short.as_str().starts_with("refused (19) at 0: "));
        assert!(rt; answers(heap, "lower 3\ncombine into 0", "[]: ")?);
        Ok(())
    }

    #[test]
    fn a_schema_is_refused_by_name_before_type(rt: HostRuntime) -> Result<(), Fail> {
        let heap = rt.alloc();
        let both = last_answer(heap, "text net\nfield @2:2 7\nschema")?;
        assert!(rt; both.as_str().starts_with("refused (1) at 0: "));
        let kind = last_answer(heap, "text net\nfield net 0\nfield @9:9 9\nschema")?;
        assert!(rt; kind.as_str().starts_with("refused (2) at 0: "));
        assert!(rt; answers(heap, "text net\nschema", "a schema of 0 fields: ")?);
        Ok(())
    }
}
