//! Prints many set files: each line of standard input is one, in hexadecimal digits.
#![tactic(auto)]

use printout::{TEXT_BYTES, print_file};
use std::alloc::{AllocError, Global};
use std::io::{BufRead, BufReader, Write};

/// The value of a hexadecimal digit; any other byte, a capital too, counts as 0.
/// The library's digits read capitals and refuse rubbish, and this program reads as it did.
fn digit(byte: u8) -> u8 {
    match byte {
        b'0'..=b'9' => byte - b'0',
        b'a'..=b'f' => byte - b'a' + 10,
        _ => 0,
    }
}

/// The bytes that pairs of digits stand for.
fn decoded(heap: Global, line: &[u8]) -> Result<Vec<u8>, AllocError> {
    let (pairs, _) = line.as_chunks::<2>();
    let mut bytes = Vec::new(heap);
    for [high, low] in pairs {
        bytes.push(digit(*high) << 4 | digit(*low))?;
    }
    Ok(bytes)
}

fn main(rt: HostRuntime) -> anyhow::Result<()> {
    let mut text = [0; TEXT_BYTES];
    for line in BufReader::new(rt.alloc(), rt.stdin())?.lines(rt.alloc()) {
        let bytes = decoded(rt.alloc(), line?.as_bytes())?;
        let len = print_file(bytes.as_slice(), &mut text)?;
        rt.stdout().write_all(&text[..len])?;
    }
    Ok(())
}
