//! What the call answers and writes: texts, refusals, faults and statuses.

use samr_io::{MemSink, MemSource};
use samr_run::{Status, samr_plain};
use std::test::Fail;

const BLOCKS: &str =
    "format = 1\ndim = 2\ndomain = [8, 8]\nperiodic = [false, false]\nblock = [4, 4]\n";

/// What one call answers and leaves: the status, and the text in the sink.
fn outcome(
    rt: &HostRuntime,
    words: &str,
    input: &[u8],
    failing_read: Option<u64>,
    most: usize,
    failing_write: Option<u64>,
) -> Result<(Status, String), Fail> {
    let mut list = Vec::new(rt.alloc());
    for word in words.split_whitespace() {
        list.push(String::from_str(rt.alloc(), word)?)?;
    }
    let mut reads = Vec::new(rt.alloc());
    if let Some(call) = failing_read {
        reads.push(call)?;
    }
    let mut writes = Vec::new(rt.alloc());
    if let Some(call) = failing_write {
        writes.push(call)?;
    }
    let mut source = MemSource::new(Vec::from_slice(rt.alloc(), input)?, reads);
    let mut sink = MemSink::new(rt.alloc(), 65536, most, writes)?;
    let status = samr_plain(rt.alloc(), list.as_slice(), &mut source, &mut sink);
    let text = std::str::from_utf8(sink.held())?;
    Ok((status, String::from_str(rt.alloc(), text)?))
}

#[test]
fn check_prints_level_0_with_its_owners(rt: HostRuntime) -> Result<(), Fail> {
    let rows = [
        (
            "check --ranks 3",
            "domain = [8, 8]",
            "samr ranks 3 levels 1 width 0 0 0\nlevel 0 boxes 4 cells 64\nbox 0 0 0 0 0 3 3 0\nbox 0 0 4 0 0 7 3 0\nbox 0 1 0 4 0 3 7 0\nbox 0 2 4 4 0 7 7 0\nend\n",
        ),
        (
            "check --ranks 16",
            "domain = [1, 1]",
            "samr ranks 16 levels 1 width 0 0 0\nlevel 0 boxes 1 cells 1\nbox 0 0 0 0 0 0 0 0\nend\n",
        ),
        (
            "check --ranks 2",
            "domain = [9, 4]",
            "samr ranks 2 levels 1 width 0 0 0\nlevel 0 boxes 3 cells 36\nbox 0 0 0 0 0 3 3 0\nbox 0 0 4 0 0 7 3 0\nbox 0 1 8 0 0 8 3 0\nend\n",
        ),
    ];
    for (words, domain, text) in rows {
        let input = format!(in rt.alloc();
            "format = 1\ndim = 2\n{domain}\nperiodic = [false, false]\nblock = [4, 4]\n"
        )?;
        let (status, written) = outcome(&rt, words, input.as_bytes(), None, 65536, None)?;
        assert_eq!(rt; written.as_str(), text, "{words} on {domain}");
        assert_eq!(rt; status, Status::Done);
    }
    Ok(())
}

#[test]
fn check_prints_the_edges_of_level_0(rt: HostRuntime) -> Result<(), Fail> {
    // The words, the problem's lines behind the format, and the text.
    let rows = [
        (
            "check --ranks 1",
            "format = 1\ndim = 2\ndomain = [4, 8]\nperiodic = [true, false]\nblock = [4, 8]\nghost = [4, 0]\n",
            "samr ranks 1 levels 1 width 4 0 0\nlevel 0 boxes 1 cells 32\nbox 0 0 0 0 0 3 7 0\nedge 0 0 0 0 0 0 3 7 0 0 0 0 0 3 7 0 -1 0 0\nedge 0 0 0 0 0 0 3 7 0 0 0 0 0 3 7 0 0 0 0\nedge 0 0 0 0 0 0 3 7 0 0 0 0 0 3 7 0 1 0 0\nend\n",
        ),
        (
            "check --ranks 2",
            "format = 1\ndim = 3\ndomain = [4, 4, 8]\nperiodic = [false, false, false]\nblock = [4, 4, 4]\nghost = [0, 0, 1]\n",
            "samr ranks 2 levels 1 width 0 0 1\nlevel 0 boxes 2 cells 128\nbox 0 0 0 0 0 3 3 3\nbox 0 1 0 0 4 3 3 7\nedge 0 0 0 0 0 0 3 3 3 0 0 0 0 3 3 3 0 0 0\nedge 0 0 0 0 0 0 3 3 3 1 0 0 4 3 3 7 0 0 0\nedge 0 0 1 0 0 4 3 3 7 0 0 0 0 3 3 3 0 0 0\nedge 0 0 1 0 0 4 3 3 7 1 0 0 4 3 3 7 0 0 0\nend\n",
        ),
        (
            "check --ranks 2",
            "format = 2\ndim = 2\ndomain = [8, 8]\nperiodic = [false, false]\nblock = [4, 4]\nghost = [1, 1]\nboundary = [9, 9]\n[[part]]\nlo = [0, 0]\nhi = [3, 7]\n[[part]]\nlo = [4, 0]\nhi = [7, 3]\n",
            "samr ranks 2 levels 1 width 1 1 0\nlevel 0 boxes 3 cells 48\nbox 0 0 0 0 0 3 3 0\nbox 0 0 0 4 0 3 7 0\nbox 0 1 4 0 0 7 3 0\nedge 0 0 0 0 0 0 3 3 0 0 0 0 0 3 3 0 0 0 0\nedge 0 0 0 0 0 0 3 3 0 0 0 4 0 3 7 0 0 0 0\nedge 0 0 0 0 0 0 3 3 0 1 4 0 0 7 3 0 0 0 0\nedge 0 0 0 0 4 0 3 7 0 0 0 0 0 3 3 0 0 0 0\nedge 0 0 0 0 4 0 3 7 0 0 0 4 0 3 7 0 0 0 0\nedge 0 0 0 0 4 0 3 7 0 1 4 0 0 7 3 0 0 0 0\nedge 0 0 1 4 0 0 7 3 0 0 0 0 0 3 3 0 0 0 0\nedge 0 0 1 4 0 0 7 3 0 0 0 4 0 3 7 0 0 0 0\nedge 0 0 1 4 0 0 7 3 0 1 4 0 0 7 3 0 0 0 0\nend\n",
        ),
    ];
    for (words, input, text) in rows {
        let (status, written) = outcome(&rt, words, input.as_bytes(), None, 65536, None)?;
        assert_eq!(rt; written.as_str(), text, "{input}");
        assert_eq!(rt; status, Status::Done);
    }
    let (status, text) = outcome(
        &rt,
        "check --ranks 1",
        b"format = 1\ndim = 2\ndomain = [8, 8]\nperiodic = [false, false]\nblock = [4, 4]\nlevels = 2\nghost = [2, 2]\n",
        None,
        65536,
        None,
    )?;
    assert_eq!(rt; status, Status::Done);
    assert!(rt;
        text.as_str()
            .starts_with("samr ranks 1 levels 2 width 2 2 0\n")
    );
    Ok(())
}

/// The problem of seed 1 and size 1.
const MADE: &str =
    "format = 1\ndim = 2\ndomain = [8, 8]\nperiodic = [true, true]\nblock = [8, 8]\nghost = [1, 1]\nlevels = 3\nnest = [1, 1]\ntag_buffer = [1, 1]\nefficiency = 70\nsmallest = 2\nlargest = 32\nregrid = 2\nsteps = 8\nmodulus = 1000000\ninit = [0, 1, 3]\nupdate = [1, 1]\n\n[[ball]]\nat = [14, 17]\nradius = 1\nvelocity = [-2, 4]\n";

#[test]
fn make_prints_a_problem_and_reads_nothing(rt: HostRuntime) -> Result<(), Fail> {
    for words in ["make --seed 1 --size 1", "make --size 1 --seed 1"] {
        let (status, text) = outcome(&rt, words, BLOCKS.as_bytes(), Some(0), 65536, None)?;
        assert_eq!(rt; text.as_str(), MADE, "{words}");
        assert_eq!(rt; status, Status::Done);
    }
    for words in ["make --seed 0 --size 64", "make --seed 4294967295 --size 1"] {
        let (status, _) = outcome(&rt, words, BLOCKS.as_bytes(), Some(0), 65536, None)?;
        assert_eq!(rt; status, Status::Done, "{words}");
    }
    let (status, text) = outcome(&rt, "check --ranks 1", MADE.as_bytes(), None, 65536, None)?;
    assert_eq!(rt; status, Status::Done);
    assert!(rt;
        text.as_str()
            .starts_with("samr ranks 1 levels 3 width 1 1 0\n")
    );
    Ok(())
}

#[test]
fn a_text_is_refused_by_its_first_fault(rt: HostRuntime) -> Result<(), Fail> {
    // What stands in place of a line of the text above, and the line written.
    let rows = [
        ("domain = [8, 8]", "domain = [8, 0]", "refused 6 domain\n"),
        ("domain = [8, 8]", "", "refused 4 domain\n"),
        ("domain = [8, 8]", "domain = [8]", "refused 7 domain\n"),
        (
            "domain = [8, 8]",
            "domain = [8, \"x\"]",
            "refused 5 domain\n",
        ),
        (
            "domain = [8, 8]",
            "domain = [8, 8]\ncolour = 1",
            "refused 3 colour\n",
        ),
        (
            "domain = [8, 8]",
            "domain = [8, 8]\ndomain = [8, 8]",
            "refused 2\n",
        ),
        (
            "domain = [8, 8]",
            "domain = [9223372036854775807, 8]",
            "refused 6 domain\n",
        ),
        (
            "domain = [8, 8]",
            "domain = [4194304, 2]",
            "refused 10 domain\n",
        ),
        ("domain = [8, 8]", "domain = [8.0, 8]", "refused 5 domain\n"),
        ("block = [4, 4]", "", "refused 4 block\n"),
        (
            "block = [4, 4]",
            "block = [4, 4]\nlevels = 2\nghost = [3, 3]",
            "refused 8 ghost\n",
        ),
        (
            "domain = [8, 8]\nperiodic = [false, false]\nblock = [4, 4]",
            "domain = [4, 8]\nperiodic = [true, false]\nblock = [4, 8]\nghost = [5, 0]",
            "refused 9 domain\n",
        ),
        (
            "block = [4, 4]",
            "block = [4, 4]\n[[box]]",
            "refused 4 box.0.lo\n",
        ),
        (
            "block = [4, 4]",
            "block = [4, 4]\n[[box]]\n\"a b\" = 1",
            "refused 3 box.0.?\n",
        ),
        (
            "block = [4, 4]",
            "block = [4, 4]\nupdate = [1, 1]",
            "refused 6 update\n",
        ),
        ("dim = 2", "dim = 3", "refused 7 domain\n"),
        ("format = 1", "format =", "refused 2\n"),
    ];
    for (line, instead, written) in rows {
        let input = BLOCKS.replace(rt.alloc(), line, instead)?;
        let (status, text) = outcome(&rt, "check --ranks 3", input.as_bytes(), None, 65536, None)?;
        assert_eq!(rt; text.as_str(), written, "{instead}");
        assert_eq!(rt; status, Status::Refused);
    }
    Ok(())
}

#[test]
fn odd_texts_have_the_answer_of_the_definition(rt: HostRuntime) -> Result<(), Fail> {
    let level =
        "samr ranks 3 levels 1 width 0 0 0\nlevel 0 boxes 4 cells 64\nbox 0 0 0 0 0 3 3 0\nbox 0 0 4 0 0 7 3 0\nbox 0 1 0 4 0 3 7 0\nbox 0 2 4 4 0 7 7 0\nend\n";
    let rows: [(&str, &str); 8] = [
        ("", "refused 4 format\n"),
        ("format =", "refused 2\n"),
        ("format = 1\ndim = 2\ndomain = [8,", "refused 2\n"),
        (
            "\u{feff}format = 1\r\ndim = 2\r\ndomain = [8, 8]\r\nperiodic = [false, false]\r\nblock = [4, 4]\r\n",
            level,
        ),
        (
            "# a comment\nblock = [4, 4] # another\nperiodic = [ false, false ]\n\ndomain = [\n  8,\n  8,\n]\ndim = 0x2\nformat = 1",
            level,
        ),
        ("format.a = 1\ndim = 2\n", "refused 4 domain\n"),
        (
            "format = { a = 1 }\ndim = 2\ndomain = [8, 8]\nperiodic = [false, false]\nblock = [4, 4]\n",
            "refused 5 format\n",
        ),
        ("\"a b\" = 1\n", "refused 3 ?\n"),
    ];
    for (input, written) in rows {
        let (_, text) = outcome(&rt, "check --ranks 3", input.as_bytes(), None, 65536, None)?;
        assert_eq!(rt; text.as_str(), written, "{input:?}");
    }
    let (status, text) = outcome(&rt, "check --ranks 3", &[255], None, 65536, None)?;
    assert_eq!(rt; text.as_str(), "refused 1\n");
    assert_eq!(rt; status, Status::Refused);
    Ok(())
}

#[test]
fn long_texts_are_read_to_the_limit(rt: HostRuntime) -> Result<(), Fail> {
    // How often a byte stands behind the first text, and the line written.
    let rows = [
        ("", b' ', 1_048_577, "refused 11\n"),
        ("", b' ', 1_048_576, "refused 4 format\n"),
        ("#", b'x', 1_048_575, "refused 4 format\n"),
        ("a = ", b'[', 100_000, "refused 2\n"),
    ];
    for (front, byte, count, written) in rows {
        let mut input = Vec::from_slice(rt.alloc(), front.as_bytes())?;
        let more = vec![in rt.alloc(); byte; count]?;
        input.extend_from_slice(more.as_slice())?;
        let (status, text) = outcome(&rt, "check --ranks 1", input.as_slice(), None, 65536, None)?;
        assert_eq!(rt; text.as_str(), written, "{count}");
        assert_eq!(rt; status, Status::Refused);
    }
    Ok(())
}

#[test]
fn other_words_are_bad_words(rt: HostRuntime) -> Result<(), Fail> {
    let rows = [
        "",
        "check",
        "check --ranks",
        "check --ranks 0",
        "check --ranks 03",
        "check --ranks +3",
        "check --ranks 17",
        "check --ranks 99999999999999999999",
        "check --ranks 3 --ranks 3",
        "check --ranks 3 --seed 1",
        "check --rank 3",
        "checks --ranks 3",
        "run --ranks 0",
        "run --ranks 2",
        "load --seed 1 --size 8 --ranks 4",
        "sim --ranks 2",
        "make",
        "make --seed 1",
        "make --size 1",
        "make --seed 1 --seed 1",
        "make --seed 1 --size 0",
        "make --seed 1 --size 65",
        "make --seed 4294967296 --size 1",
        "make --seed 01 --size 1",
        "make --seed -1 --size 1",
        "make --seed 1 --ranks 1",
        "make --seed 1 --size 1 --ranks 1",
        "make 1 1",
    ];
    for words in rows {
        let (status, text) = outcome(&rt, words, BLOCKS.as_bytes(), Some(0), 65536, None)?;
        assert_eq!(rt; text.as_str(), "bad words\n", "{words}");
        assert_eq!(rt; status, Status::Words);
    }
    Ok(())
}

#[test]
fn a_fault_ends_the_run(rt: HostRuntime) -> Result<(), Fail> {
    let words = "check --ranks 2";
    let whole =
        "samr ranks 2 levels 1 width 0 0 0\nlevel 0 boxes 4 cells 64\nbox 0 0 0 0 0 3 3 0\nbox 0 0 4 0 0 7 3 0\nbox 0 1 0 4 0 3 7 0\nbox 0 1 4 4 0 7 7 0\nend\n";
    for call in 0..6 {
        // The input is read by two calls, and the second one finds its end.
        let (status, text) = outcome(&rt, words, BLOCKS.as_bytes(), Some(call), 65536, None)?;
        if call < 2 {
            assert_eq!(rt; (status, text.as_str()), (Status::ReadFault, ""));
        } else {
            assert_eq!(rt; (status, text.as_str()), (Status::Done, whole));
        }
        for most in [1usize, 8] {
            let (status, text) = outcome(&rt, words, BLOCKS.as_bytes(), None, most, Some(call))?;
            assert_eq!(rt; status, Status::WriteFault);
            let held = most * call as usize;
            assert!(rt; whole.starts_with(text.as_str()) && text.len() == held);
        }
    }
    let (status, text) = outcome(&rt, words, BLOCKS.as_bytes(), None, 8, Some(2))?;
    assert_eq!(rt;
        (status, text.as_str()),
        (Status::WriteFault, "samr ranks 2 lev")
    );
    let (status, text) = outcome(&rt, words, BLOCKS.as_bytes(), None, 0, None)?;
    assert_eq!(rt; (status, text.as_str()), (Status::WriteFault, ""));
    let (status, text) = outcome(&rt, "none", BLOCKS.as_bytes(), None, 4, Some(1))?;
    assert_eq!(rt; (status, text.as_str()), (Status::WriteFault, "bad "));
    Ok(())
}

#[test]
fn a_status_has_its_number(rt: HostRuntime) {
    let rows = [
        (Status::Done, 0),
        (Status::Words, 2),
        (Status::Refused, 3),
        (Status::ReadFault, 4),
        (Status::WriteFault, 5),
        (Status::Memory, 6),
    ];
    for (status, number) in rows {
        assert_eq!(rt; status.number(), number);
    }
}
