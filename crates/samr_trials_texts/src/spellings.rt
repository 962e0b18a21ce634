//! Problem texts as documents: spellings of one problem, and texts that are too long or too deep.

use crate::problem_texts::{is_accepted, is_refused, text_with};
use samr_problem::read_problem;
use std::test::Fail;

#[test]
fn every_spelling_is_accepted(rt: HostRuntime) -> Result<(), Fail> {
    let rows = [
        "block = [4, 5]\nperiodic = [false, true]\ndomain = [8, 9]\ndim = 2\nformat = 1",
        "format = 1\r\ndim = 2\r\ndomain = [8, 9]\r\nperiodic = [false, true]\r\nblock = [4, 5]\r\n",
        "\u{feff}format = 1\ndim = 2\ndomain = [8, 9]\nperiodic = [false, true]\nblock = [4, 5]\n",
        "# é\nformat = 1 # one\ndim = 2\n\ndomain = [\n8, # i\n9,\n]\nperiodic = [false, true]\nblock = [4, 5]\n",
        "format = 1\ndim = 2\ndomain = [8, 9,]\nperiodic = [false, true]\nblock = [4, 5]\n",
        "format = 0x1\ndim = +2\n\"domain\" = [0x8, 0b1001]\nperiodic = [false, true]\nblock = [4, 5]\n",
        "format = 1\ndim = 3\ndomain = [8, 9, 4]\nperiodic = [false, true, true]\nblock = [4, 5, 6]\n",
    ];
    for text in rows {
        let Ok(problem) = read_problem(rt.alloc(), text.as_bytes()) else {
            assert!(rt; false, "{text}");
            return Ok(());
        };
        assert_eq!(rt; (problem.domain.i, problem.domain.j), (8, 9), "{text}");
        assert_eq!(rt; (problem.block.i, problem.block.j), (4, 5), "{text}");
        assert_eq!(rt;
            (problem.periodic.i, problem.periodic.j),
            (false, true),
            "{text}"
        );
        assert_eq!(rt; problem.dim == 3, problem.periodic.k, "{text}");
    }
    Ok(())
}

#[test]
fn the_text_is_bounded(rt: HostRuntime) -> Result<(), Fail> {
    let alloc = rt.alloc();
    assert!(rt; is_refused(alloc, &[255], 1, ""));
    assert!(rt; is_refused(alloc, b"", 4, "format"));
    assert!(rt; is_refused(alloc, b"format =", 2, ""));
    assert!(rt; is_refused(alloc, b"format = 1\ndim = 2\ndomain = [8,", 2, ""));
    let mut blanks = vec![in alloc; b' '; 1_048_577]?;
    assert!(rt; is_refused(alloc, blanks.as_slice(), 11, ""));
    blanks.truncate(1_048_576);
    assert!(rt; is_refused(alloc, blanks.as_slice(), 4, "format"));
    let mut text = text_with(alloc, "", "#")?;
    for _ in 0..1_048_499 {
        text.push('#')?;
    }
    assert_eq!(rt; text.len(), 1_048_576);
    assert!(rt; is_accepted(alloc, text.as_bytes()));
    for (depth, cause, key) in [(80, 3, "x"), (81, 2, ""), (200, 2, "")] {
        let mut text = String::from_str(alloc, "x = ")?;
        for _ in 0..depth {
            text.push('[')?;
        }
        for _ in 0..depth {
            text.push(']')?;
        }
        assert!(rt;
            is_refused(alloc, text.as_bytes(), cause, key),
            "at {depth}"
        );
    }
    Ok(())
}
