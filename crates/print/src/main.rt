//! Prints the plan of the set file on standard input, or the refusal of that file, to standard output.
//!
//! It takes no arguments. The status is 0 where a text is printed, that of a refused file too; 1 where reading or writing fails, or memory is wanting; 2 where there is an argument. What went wrong stands on standard error.
#![tactic(auto)]

use anyhow::{Context, Result};
use printout::{TEXT_BYTES, print_file};
use setfile::MOST_BYTES;
use std::env::FillError;
use std::io::{Read, Write};
use std::process::ExitCode;
use std::rt::Env;

/// A byte more than the longest file has: so many bytes have one text, whatever stands behind them.
const READ_BYTES: u64 = MOST_BYTES as u64 + 1;

/// Whether there is an argument behind the program's name, of whatever bytes.
fn has_argument(rt: &impl Env) -> bool {
    !matches!(rt.arg(1, &mut []), Err(FillError::NotPresent))
}

/// Prints the text of what is on standard input.
fn print_input(rt: HostRuntime) -> Result<()> {
    let mut bytes = Vec::new(rt.alloc());
    rt.stdin()
        .take(READ_BYTES)
        .read_to_end(&mut bytes)
        .context("cannot read standard input")?;
    let mut text = [0; TEXT_BYTES];
    let len = print_file(bytes.as_slice(), &mut text)?;
    rt.stdout()
        .write_all(&text[..len])
        .context("cannot write to standard output")
}

fn main(rt: HostRuntime) -> Result<ExitCode> {
    if has_argument(&rt) {
        // the status tells it too, where standard error takes nothing
        let _ = rt.eprintln("usage: print < FILE");
        return Ok(ExitCode::from(2));
    }
    print_input(rt)?;
    Ok(ExitCode::SUCCESS)
}
