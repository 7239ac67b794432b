// Reading a circuit.
#![tactic(auto)]

ghost use Rattle.std.specs.Prelude.{◌≡◌, ◌≤◌};
ghost use Rattle.circuit.specs.Answers.{read_paper};
ghost use Rattle.circuit.specs.Fields.{field, read_fields, read_with};
ghost use Rattle.circuit.specs.FieldSteps.{Known, Framed, Linked};
ghost use Rattle.circuit.specs.File.{max_gates};
ghost use Rattle.circuit.specs.Operations.{read_answer, read_op};

use chain::walk_chain;
use circuit::records::field;
use circuit::{Fault, Front, MAX_GATES, Sizes, WIDTH};
use legality::{and_count, good_outputs, good_reads, good_records, within_limits};
use refusal::Refusal;

// Reads a circuit: its numbers I, O, G and A, or the first refusal with the slot that it tells.
pub fn read(s: &[u8]) -> Result<Sizes, Fault>
    ensures { read_paper result ≡ read_op s.now }
{
    read_with(s, WIDTH, MAX_GATES)
}

// Reads a circuit in the form with fields of `bytes` bytes and at most `most` gates.
pub fn read_with(s: &[u8], bytes: usize, most: usize) -> Result<Sizes, Fault>
    requires { Known bytes × (most ≤ max_gates) }
    ensures { read_paper result ≡ read_answer (read_with bytes most s.now) }
{
    if s.len() < bytes * 4 {
        return Err(Refusal::Length.into());
    }
    let inputs = field(s, bytes, 0) as usize;
    let outputs = field(s, bytes, 1) as usize;
    let gates = field(s, bytes, 2) as usize;
    let head = field(s, bytes, 3) as usize;
    let limited = within_limits(most, inputs, outputs, gates);
    let sized = s.len() == bytes * (4 + outputs + 4 * gates);
    if !limited {
        return Err(Refusal::Limits.into());
    }
    if sized {
        let f = Front {
            width: bytes,
            inputs,
            outputs,
            gates,
            head,
        };
        read_body(s, f)
    } else {
        Err(Refusal::Length.into())
    }
}

// Reads a circuit whose header and length are good.
fn read_body(s: &[u8], f: Front) -> Result<Sizes, Fault>
    requires { Framed f.width s.now f.inputs f.outputs f.gates f.head }
    ensures { read_paper result ≡ read_answer (read_fields (field f.width s.now)) }
{
    if !good_records(s, f) {
        return Err(Refusal::Record.into());
    }
    walk_chain(s, f)?;
    read_wires(s, f)
}

// Reads a circuit whose chain is good too.
fn read_wires(s: &[u8], f: Front) -> Result<Sizes, Fault>
    requires { Linked f.width s.now f.inputs f.outputs f.gates f.head }
    ensures { read_paper result ≡ read_answer (read_fields (field f.width s.now)) }
{
    if !good_reads(s, f) {
        return Err(Refusal::Wire.into());
    }
    if !good_outputs(s, f) {
        return Err(Refusal::Wire.into());
    }
    let ands = and_count(s, f);
    Ok(Sizes {
        inputs: f.inputs,
        outputs: f.outputs,
        gates: f.gates,
        ands,
    })
}
