//! Inputs of programs, read from memory, and the line of a refused sheet.

#[cfg(test)]
mod tests {
    use std::test::Fail;
    use text::answers::refused_line;
    use text::input::{LIMIT, read_input};

    #[test]
    fn an_input_is_read_whole(rt: HostRuntime) -> Result<(), Fail> {
        let source = b"1042\ng 0\n";
        let input = read_input(rt.alloc(), source.as_slice())?;
        assert!(rt; input.as_slice() == source.as_slice());
        Ok(())
    }

    #[test]
    fn no_more_is_read_than_one_past_the_limit(rt: HostRuntime) -> Result<(), Fail> {
        let source = vec![in rt.alloc(); b'0'; LIMIT + 4]?;
        let input = read_input(rt.alloc(), source.as_slice())?;
        assert_eq!(rt; input.len(), LIMIT + 1);
        Ok(())
    }

    #[test]
    fn the_line_of_a_refused_sheet(rt: HostRuntime) -> Result<(), Fail> {
        let line = refused_line(rt.alloc(), 6, 72)?;
        assert_eq!(rt; line.as_str(), "sheet 6 72\n");
        Ok(())
    }
}
