// The header lines of a text.
ghost use Rattle.std.specs.Prelude.{◌≡◌, ◌<◌, ◌≤◌, length, drop};
ghost use Rattle.bristol_text.specs.Text.{lines};
ghost use Rattle.bristol_text.specs.Steps.{tokens_after};
ghost use Rattle.circuit.specs.File.{max_inputs, max_gates};
ghost use Rattle.bristol_lines.specs.Rules.{Below, count_line, input_line, output_line};
ghost use Rattle.bristol_lines.specs.Steps.{counts_of, sizes_of, groups_of, GroupsAt, HeaderTold};

use crate::Sizes;
use bristol_text::{Cursor, Span, next_line, read_field, read_number};
use circuit::{MAX_GATES, MAX_INPUTS, MAX_OUTPUTS};
use refusal::Refusal;

// The two numbers of a line.
fn counts(l: &[u8]) -> Option<(usize, usize)>
    ensures { result ≡ counts_of l.now }
{
    let (gates, next) = read_field(l, Cursor { at: 0 })?;
    let (wires, end) = read_number(l, next)?;
    if end.at < l.len() {
        return None;
    }
    Some((gates, wires))
}

// The sum of the n sizes after the token that ends at a place. No sum is cut down: n is below 10^9, and so is each size.
fn sizes(l: &[u8], n: usize, end: usize) -> Option<usize>
    requires { (n < 1000000000) × (end ≤ length l.now) }
    ensures { result ≡ sizes_of n 0 (tokens_after l.now end) }
{
    let mut sum = 0;
    let mut at = end;
    for _ in 0..n {
        if l.len() <= at {
            return None;
        }
        let (size, next) = read_number(l, Cursor { at: at + 1 })?;
        sum += size;
        at = next.at;
    }
    if at < l.len() {
        return None;
    }
    Some(sum)
}

// The sum of the sizes on a line of groups.
fn groups(l: &[u8]) -> Option<usize>
    ensures { result ≡ groups_of l.now }
{
    let (n, end) = read_number(l, Cursor { at: 0 })?;
    sizes(l, n, end.at)
}

// The sum on the next line.
fn group_line(s: &[u8], c: Cursor) -> Option<(usize, Cursor)>
    ensures { GroupsAt s.now c.at result }
{
    let Span { first, last: end } = next_line(s, c);
    if s.len() <= first {
        return None;
    }
    if s.len() <= end {
        return None;
    }
    let n = groups(&s[first..end])?;
    Some((n, Cursor { at: end }))
}

// Line 3: the outputs.
fn read_outputs(
    s: &[u8],
    inputs: usize,
    gates: usize,
    c: Cursor,
) -> Result<(Sizes, Cursor), Refusal>
    requires { (1 ≤ inputs) × ((inputs ≤ max_inputs) × (gates ≤ max_gates)) }
    ensures { HeaderTold s.now (λ (b : Below). output_line b inputs gates (lines (drop c.at s.now))) result }
{
    let Some((outputs, next)) = group_line(s, c) else {
        return Err(Refusal::Text);
    };
    if inputs + gates < outputs {
        return Err(Refusal::Text);
    }
    if outputs < 1 {
        return Err(Refusal::TextLimits);
    }
    if MAX_OUTPUTS < outputs {
        return Err(Refusal::TextLimits);
    }
    let z = Sizes {
        inputs,
        outputs,
        gates,
    };
    Ok((z, next))
}

// Line 2: the inputs.
fn read_inputs(s: &[u8], gates: usize, wires: usize, c: Cursor) -> Result<(Sizes, Cursor), Refusal>
    requires { gates ≤ max_gates }
    ensures { HeaderTold s.now (λ (b : Below). input_line b gates wires (lines (drop c.at s.now))) result }
{
    let Some((inputs, next)) = group_line(s, c) else {
        return Err(Refusal::Text);
    };
    if wires < gates {
        return Err(Refusal::Text);
    }
    if wires - gates != inputs {
        return Err(Refusal::Text);
    }
    if inputs < 1 {
        return Err(Refusal::TextLimits);
    }
    if MAX_INPUTS < inputs {
        return Err(Refusal::TextLimits);
    }
    read_outputs(s, inputs, gates, next)
}

// The header lines. A function of its own in the archive too, as `bristol::walk::next_start` is.
#[inline(never)]
pub fn read_header(s: &[u8]) -> Result<(Sizes, Cursor), Refusal>
    ensures { HeaderTold s.now (λ (b : Below). count_line b (lines s.now)) result }
{
    let Span { first, last } = next_line(s, Cursor { at: 0 });
    if s.len() <= first {
        return Err(Refusal::Text);
    }
    if s.len() <= last {
        return Err(Refusal::Text);
    }
    let Some((gates, wires)) = counts(&s[first..last]) else {
        return Err(Refusal::Text);
    };
    if MAX_GATES < gates {
        return Err(Refusal::TextLimits);
    }
    read_inputs(s, gates, wires, Cursor { at: last })
}
