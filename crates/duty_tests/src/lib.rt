//! Inputs of the duty program, each with its whole listing.
#![tactic(auto)]

#[cfg(test)]
mod tests {
    use listing::record::listing;
    use std::alloc::{AllocError, Global};
    use std::test::Fail;

    struct Case {
        input: &'static str,
        listing: &'static str,
    }

    const CASES: [Case; 15] = [
        // The empty sheet.
        Case {
            input: "",
            listing: "sheet 1 0\n",
        },
        Case {
            input: "\ng 0\n",
            listing: "sheet 1 0\n",
        },
        // No call line, with a newline and without.
        Case {
            input: "104210600102041068",
            listing: "sheet 0 0\n",
        },
        Case {
            input: "104210600102041068\n",
            listing: "sheet 0 0\n",
        },
        // A last line without a newline.
        Case {
            input: "104210600102041068\ng 0",
            listing: "sheet 0 0\ng 0 0 0\n",
        },
        // Blank lines.
        Case {
            input: "104210600102041068\n\n",
            listing: "sheet 0 0\n? 0 10 0\n",
        },
        Case {
            input: "104210600102041068\n\ng 0\n\n",
            listing: "sheet 0 0\n? 0 10 0\ng 0 0 0\n? 0 10 0\n",
        },
        // Carriage returns, after the sheet and after a call.
        Case {
            input: "104210600102041068\r\ng 0\n",
            listing: "? 0 10 0\n",
        },
        Case {
            input: "104210600102041068\ng 0\r\n",
            listing: "sheet 0 0\n? 0 10 0\n",
        },
        // Upper-case hex, and an odd count of digits.
        Case {
            input: "10010C20\ng 0\n",
            listing: "? 0 10 0\n",
        },
        Case {
            input: "10421060010204106\ng 0\n",
            listing: "? 0 10 0\n",
        },
        // A refused sheet ends the listing.
        Case {
            input: "1042106001020410\ng 0\nb 0\n",
            listing: "sheet 1 61\n",
        },
        // Numbers: the greatest, one more, with leading zeros.
        Case {
            input: "104210600102041068\ng 255\ng 256\ng 00\ng 007\ng 0\n",
            listing: "sheet 0 0\ng 255 11 255\n? 0 10 0\n? 0 10 0\n? 0 10 0\ng 0 0 0\n",
        },
        // Shapes: two spaces, none, an upper-case letter, something behind, something before, no number, an unknown letter.
        Case {
            input: "104210600102041068\ng  0\ng0\nG 0\ng 0 \n g 0\ng \ng\nz 7\n? 0\n",
            listing: "sheet 0 0\n? 0 10 0\n? 0 10 0\n? 0 10 0\n? 0 10 0\n? 0 10 0\n? 0 10 0\n? 0 10 0\nz 7 10 7\n? 0 10 0\n",
        },
        // A train: consent, set, held, pulled, run, restored, released, normal, returned.
        Case {
            input: "104210600102041068\ns 0\ng 0\ng 1\ns 0\nh 0\nl 0\na 0\nf 0\nd 0\nf 0\nn 0\nb 0\nm 9\nx 9\n",
            listing: "sheet 0 0\ns 0 19 0\ng 0 0 0\ng 1 33 1\ns 0 0 0\nh 0 0 0\nl 0 0 0\na 0 0 0\nf 0 24 0\nd 0 0 0\nf 0 0 0\nn 0 0 0\nb 0 0 0\nm 9 35 0\nx 9 0 0\n",
        },
    ];

    #[test]
    fn listings(rt: HostRuntime) -> Result<(), Fail> {
        for case in CASES.iter() {
            let printed = listing(rt.alloc(), case.input.as_bytes())?;
            assert_eq!(rt; printed.as_str(), case.listing, "{}", case.input);
        }
        Ok(())
    }

    // A text, and then a part of it many times.
    fn repeated(heap: Global, head: &str, part: &str, times: usize) -> Result<String, AllocError> {
        let mut text = String::from_str(heap, head)?;
        for _ in 0..times {
            text.push_str(part)?;
        }
        Ok(text)
    }

    // The sheet and its newline are 19 bytes; a line of bytes without sense follows.
    #[test]
    fn longest_input(rt: HostRuntime) -> Result<(), Fail> {
        let heap = rt.alloc();
        let most = repeated(heap, "104210600102041068\n", "g", 65_517)?;
        let over = repeated(heap, "104210600102041068\n", "g", 65_518)?;
        assert!(rt; most.len() == 65_536 && over.len() == 65_537);
        assert_eq!(rt;
            listing(heap, most.as_bytes())?.as_str(),
            "sheet 0 0\n? 0 10 0\n"
        );
        assert_eq!(rt; listing(heap, over.as_bytes())?.as_str(), "? 0 10 0\n");
        Ok(())
    }

    #[test]
    fn most_lines(rt: HostRuntime) -> Result<(), Fail> {
        let heap = rt.alloc();
        let most = repeated(heap, "104210600102041068\n", "z 7\n", 1_024)?;
        let over = repeated(heap, "104210600102041068\n", "z 7\n", 1_025)?;
        let mut expected = repeated(heap, "sheet 0 0\n", "z 7 10 7\n", 1_024)?;
        assert_eq!(rt; listing(heap, most.as_bytes())?.as_str(), expected.as_str());
        expected.push_str("? 0 37 0\n")?;
        assert_eq!(rt; listing(heap, over.as_bytes())?.as_str(), expected.as_str());
        Ok(())
    }
}
