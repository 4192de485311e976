//! Reads lines from standard input, each a format word, a space and a number, and prints a verdict a line and the totals.
#![tactic(auto)]

ghost use Rattle.std.specs.Prelude.{OnOk};
ghost use Rattle.intake.specs.Inputs.{ReadsMore};

use alphabet::Fault;
use intake::Intake;
use std::io;
use std::io::{BufWriter, Read, Write};

// How much is read at a time: a block of one size, since memory is not to grow with the input.
const BLOCK: usize = 65536;

// One line of output: `N ok`, or `N refused` with number, layer and place.
fn print_verdict<W: Write>(out: &mut W, line: u32, verdict: Result<(), Fault>) -> io::Result<()> {
    match verdict {
        Ok(()) => writeln!(out, "{line} ok"),
        Err(fault) => writeln!(out, "{line} refused {fault}"),
    }
}

// Feeds a block to the intake, every byte in its turn, and prints the verdict of each line that ends in it.
fn feed<W: Write>(out: &mut W, intake: &mut Intake, block: &[u8]) -> io::Result<()>
    ensures { OnOk result (ReadsMore intake.old block.now intake.new) }
{
    for byte in block {
        if let Some(verdict) = intake.byte(*byte) {
            print_verdict(out, intake.totals().lines(), verdict)?;
        }
    }
    Ok(())
}

fn main(rt: HostRuntime) -> io::Result<()> {
    let mut input = rt.stdin();
    let mut out = BufWriter::new(rt.alloc(), rt.stdout())?;
    let mut block = [0u8; BLOCK];
    let mut intake = Intake::new();
    // A `while` would have to be proved to end, and an input says nothing of its length: this bound is never reached.
    for _ in 0..u64::MAX {
        if intake.full() {
            break;
        }
        match input.read(&mut block)? {
            0 => break,
            n => feed(&mut out, &mut intake, &block[..n])?,
        }
    }
    if let Some(verdict) = intake.finish() {
        print_verdict(&mut out, intake.totals().lines(), verdict)?;
    }
    writeln!(out, "{}", intake.totals())?;
    out.flush()
}
