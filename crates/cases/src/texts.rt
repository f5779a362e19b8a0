//! What is read of short texts and drawn, and each way to be wrong.
use std::alloc::Global;
use std::test::Fail;
use text::draw::Drawing;
use text::fault::Fault;
use text::flaw::Flaw;
use text::read::Rows;

/// The error, or that there is none.
fn error_of<T: Drop, E>(answer: Result<T, E>, none: &'static str) -> Result<E, Fail> {
    answer.err().ok_or_else(|| Fail::new(none))
}

/// What is wrong with a text that is no rows.
fn fault_of(heap: Global, text: &str) -> Result<Fault, Fail> {
    error_of(Rows::read(heap, text), "these are rows")
}

/// What is wrong with rows that are no frame.
fn flaw_of(heap: Global, text: &str) -> Result<Flaw, Fail> {
    error_of(Rows::read(heap, text)?.judge(), "this is a frame")
}

#[test]
fn faults(rt: HostRuntime) -> Result<(), Fail> {
    let heap = rt.alloc();
    for (text, expected) in [
        ("", Fault::TooFew { line: 1, rows: 0 }),
        ("#\n1 0\n\n", Fault::TooFew { line: 3, rows: 1 }),
        (
            "0 1\n\n2",
            Fault::Ragged {
                line: 3,
                count: 1,
                wide: 2,
            },
        ),
        ("\n1\n0", Fault::Columns { line: 2, count: 1 }),
        ("1 2\n3 x", Fault::NotANumber { line: 2, word: 2 }),
        ("256 1", Fault::NotANumber { line: 1, word: 1 }),
    ] {
        assert_eq!(rt; fault_of(heap, text)?, expected);
    }
    assert_eq!(rt;
        fault_of(heap, "1 ".repeat(heap, 17)?.as_str())?,
        Fault::Columns { line: 1, count: 17 }
    );
    assert_eq!(rt;
        fault_of(heap, "0 1\n".repeat(heap, 17)?.as_str())?,
        Fault::TooMany { line: 17 }
    );
    Ok(())
}

#[test]
fn flaws(rt: HostRuntime) -> Result<(), Fail> {
    let heap = rt.alloc();
    let flaw = flaw_of(heap, "1 2\n3 4")?;
    assert_eq!(rt;
        flaw,
        Flaw::TooLarge {
            line: 2,
            number: 4,
            largest: 3,
            missing: Some(0),
        }
    );
    let flaw = flaw_of(heap, "3 1\n#\n0 3")?;
    assert_eq!(rt;
        flaw,
        Flaw::Twice {
            line: 3,
            number: 3,
            earlier: 1,
            missing: Some(2),
        }
    );
    Ok(())
}

/// Blanks, tabs, carriage returns, a sign and a comment are read over, and columns line up.
#[test]
fn drawings(rt: HostRuntime) -> Result<(), Fail> {
    let heap = rt.alloc();
    let rows = Rows::read(heap, "#\n 1\t2 3 4\r\n\n5 +6 7 8\r\n9 10 11 0")?;
    let drawing = Drawing {
        sides: rows.sides,
        cells: rows.cells.as_slice(),
    };
    assert_eq!(rt;
        format!(in heap; "{drawing}")?.as_str(),
        " 1  2  3  4\n 5  6  7  8\n 9 10 11  0\n"
    );
    Ok(())
}
