// Reads a circuit from standard input and prints `ok I O G A`, or `no K` with the refusal's number; after 19, 20 and 21 the slot too.
#![tactic(auto)]

ghost use Rattle.std.specs.Prelude.{◌≤◌, length, IfOk};

use circuit::{Fault, Sizes};
use reading::read;
use refusal::Refusal;
use std::io::{self, Read};

// Prints the sizes of a legal circuit.
fn print_sizes(rt: &impl Print, z: Sizes) -> io::Result<()> {
    println!(rt; "ok {} {} {} {}", z.inputs, z.outputs, z.gates, z.ands)
}

// Prints the number of a refusal, and after 19, 20 and 21 the slot that it tells.
fn print_refusal(rt: &impl Print, f: Fault) -> io::Result<()> {
    let k = u32::from(f.refusal);
    match f.refusal {
        Refusal::BeyondGates | Refusal::EndsEarly | Refusal::GoesOn => {
            println!(rt; "no {k} {}", f.slot)
        }
        _ => println!(rt; "no {k}"),
    }
}

// Reads the circuit s and prints the answer.
fn print_answer(rt: &impl Print, s: &[u8]) -> io::Result<()> {
    match read(s) {
        Ok(z) => print_sizes(rt, z),
        Err(f) => print_refusal(rt, f),
    }
}

// Reads until the buffer is full or the input ends, and answers the number of bytes.
fn read_full(input: &mut impl Read, buffer: &mut [u8]) -> io::Result<usize>
    ensures { IfOk result (λ n. n ≤ length buffer.new) }
{
    let mut at = 0;
    // A `for` is no plainer: a read brings any number of bytes.
    while at < buffer.len() {
        let n = input.read(&mut buffer[at..])?;
        if n == 0 {
            break;
        }
        at += n;
    }
    Ok(at)
}

// The longest file that is read; a longer one is a wrong length.
const LONGEST: usize = 65536;

fn main(rt: HostRuntime) -> io::Result<()> {
    let mut buffer = [0; LONGEST + 1];
    let n = read_full(&mut rt.stdin(), &mut buffer)?;
    if n == LONGEST + 1 {
        return print_refusal(&rt, Refusal::Length.into());
    }
    print_answer(&rt, &buffer[..n])
}
