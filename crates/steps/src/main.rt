//! Reads a frame, draws it, and says whether it can be put in order.
#![tactic(auto)]

use anyhow::{Result, anyhow, ensure};
use std::process::ExitCode;
use std::{env, fs, io};
use text::draw::Drawing;
use text::read::Rows;

/// The text of the file that is named as the one argument, or else of the standard input.
fn input(rt: &HostRuntime) -> Result<String> {
    let mut args = env::args(rt)?.skip(1);
    let Some(path) = args.next() else {
        return io::read_to_string(rt.alloc(), rt.stdin()).map_err(|error| anyhow!(
            "can't read the standard input: {error}"
        ));
    };
    ensure!(
        args.next().is_none(),
        "more than one file; usage: steps [FILE]"
    );
    fs::read_to_string(rt, path.as_str()).map_err(|error| anyhow!("can't read {path}: {error}"))
}

fn run(rt: &HostRuntime) -> Result<()> {
    let text = input(rt)?;
    let rows = Rows::read(rt.alloc(), text.as_str())?;
    let verdict = rows.judge()?;
    let drawing = Drawing {
        sides: rows.sides,
        cells: rows.cells.as_slice(),
    };
    println!(rt; "{drawing}\n{verdict}")?;
    Ok(())
}

fn main(rt: HostRuntime) -> Result<ExitCode> {
    let Err(error) = run(&rt) else {
        return Ok(ExitCode::SUCCESS);
    };
    eprintln!(rt; "steps: {error}")?;
    Ok(ExitCode::FAILURE)
}
