//! What the player answers to scripts that are not as they should be.
#![tactic(auto)]

#[cfg(test)]
mod tests {
    use player::transcript::transcript;
    use script::language::{AllCommands, Language, WithoutPools};
    use std::process::Abort;
    use std::test::Fail;

    // What is printed for a script in a language is this text.
    fn prints_in<L: Language>(
        rt: &(impl Abort + AllocGlobal),
        script: &[u8],
        text: &[u8],
    ) -> Result<(), Fail> {
        let out = transcript::<L>(rt.alloc(), script)?;
        assert!(rt; out.as_slice() == text);
        Ok(())
    }

    // The same in the language of all commands.
    fn prints(rt: &(impl Abort + AllocGlobal), script: &[u8], text: &[u8]) -> Result<(), Fail> {
        prints_in::<AllCommands>(rt, script, text)
    }

    #[test]
    fn nothing_is_printed_for_nothing(rt: HostRuntime) -> Result<(), Fail> {
        prints(&rt, b"", b"")?;
        prints(&rt, b"\n", b"")?;
        prints(&rt, b"\n\n# a comment", b"")
    }

    #[test]
    fn the_last_line_may_end_without_a_newline(rt: HostRuntime) -> Result<(), Fail> {
        prints(&rt, b"plan 256 2 2 3 2 1", b"plan 256 2 2 3 2 1: ok\n")?;
        prints(&rt, b"begin", b"begin: no pool\n")
    }

    #[test]
    fn other_bytes_are_parts_of_words(rt: HostRuntime) -> Result<(), Fail> {
        prints(&rt, b"\0", b"\0: not understood\n")?;
        prints(&rt, b"\xff\xfe map", b"\xff\xfe map: not understood\n")?;
        prints(&rt, b"map\t", b"map\t: not understood\n")?;
        prints(&rt, b"map\r\n", b"map\r: not understood\n")?;
        prints(&rt, b" # map", b" # map: not understood\n")?;
        prints(&rt, b"  ", b"  : not understood\n")
    }

    #[test]
    fn numbers_fit_16_bits(rt: HostRuntime) -> Result<(), Fail> {
        prints(
            &rt,
            b"plan 00000000000000000256 2 2 3 2 1",
            b"plan 00000000000000000256 2 2 3 2 1: ok\n",
        )?;
        prints(&rt, b"pull 65535", b"pull 65535: no pool\n")?;
        prints(&rt, b"pull 65536", b"pull 65536: not understood\n")?;
        prints(
            &rt,
            b"pull 18446744073709551616",
            b"pull 18446744073709551616: not understood\n",
        )?;
        prints(&rt, b"pull -1", b"pull -1: not understood\n")?;
        prints(&rt, b"read 1", b"read 1: not understood\n")?;
        prints(&rt, b"read 1 2 3", b"read 1 2 3: not understood\n")
    }

    #[test]
    fn labels_have_an_even_number_of_digits(rt: HostRuntime) -> Result<(), Fail> {
        prints(
            &rt,
            b"rack flat 256 5 5 1\nopen byte 0\nopen byte 00\nopen byte 0g\nopen 00\nopen byte",
            b"rack flat 256 5 5 1: ok\nopen byte 0: not understood\nopen byte 00: refused 15 layout 0\nopen byte 0g: not understood\nopen 00: not understood\nopen byte: not understood\n",
        )
    }

    // Lines that are not understood change nothing: the pool and its words are there after them.
    #[test]
    fn nothing_is_lost_by_garbage(rt: HostRuntime) -> Result<(), Fail> {
        prints(
            &rt,
            b"plan 256 2 2 3 2 1\nrack turning 256 5 5 1\nlay byte\nwrite 3 0 200\n\x01\x02\nlay bytes\nrack flat 1 1 1 1\nplan 1 1 1 1 1 1\nopen byte ff\nput 0 0 0 1\nread 3 0",
            b"plan 256 2 2 3 2 1: ok\nrack turning 256 5 5 1: ok\nlay byte: ok\nwrite 3 0 200: ok\n\x01\x02: not understood\nlay bytes: not understood\nrack flat 1 1 1 1: refused 1 rack 0\nplan 1 1 1 1 1 1: refused 2 layout 1\nopen byte ff: refused 15 layout 0\nput 0 0 0 1: no rack\nread 3 0: ok 200\n",
        )
    }

    // Without pools, the lines of pools are not understood, and all others answer as ever.
    #[test]
    fn pools_are_not_in_every_language(rt: HostRuntime) -> Result<(), Fail> {
        prints_in::<WithoutPools>(
            &rt,
            b"plan 256 2 2 3 2 1\nrack flat 256 5 5 1\nlay byte\nlabel\nlabel 0\nread 0 0\nbegin\nshow\nopen byte 00\nput 0 0 0 7\nget 0 0 0",
            b"plan 256 2 2 3 2 1: ok\nrack flat 256 5 5 1: ok\nlay byte: not understood\nlabel: not understood\nlabel 0: ok 01 00 00 01 02 00 02 00 03 00 02 00 01 00 00 00\nread 0 0: not understood\nbegin: not understood\nshow: not understood\nopen byte 00: not understood\nput 0 0 0 7: done\nget 0 0 0: ok 7\n",
        )
    }

    // A line of 100,000 bytes.
    #[test]
    fn lines_may_be_long(rt: HostRuntime) -> Result<(), Fail> {
        let mut script = vec![in rt.alloc(); b'7'; 100000]?;
        let out = transcript::<AllCommands>(rt.alloc(), script.as_slice())?;
        script.extend_from_slice(b": not understood\n")?;
        assert!(rt; out.as_slice() == script.as_slice());
        Ok(())
    }
}
