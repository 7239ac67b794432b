// The lines, tokens and numbers of a text.
#![tactic(auto)]

ghost use Rattle.std.specs.Prelude.{◌≡◌, Bool, ℕ, not, ◌&&◌, ◌||◌, ◌≤◌, eqb, leb};
ghost use Rattle.std.proofs.Math.Seq.{slice};
ghost use Rattle.bristol_text.specs.Text.{value_of};
ghost use Rattle.bristol_text.specs.Steps.{Tells, stop, number_at, field_at, LineAt, Digits, LastToken, FieldsTold};

// A place in a text or in a line.
#[derive(Clone, Copy)]
pub struct Cursor {
    pub at: usize,
}

// A line of a text: where it starts, and where its LF stands or the text ends.
#[derive(Clone, Copy)]
pub struct Span {
    pub first: usize,
    pub last: usize,
}

// The numbers before a line's last token: how many, and the first five.
#[derive(Clone, Copy)]
pub struct Fields {
    pub count: usize,
    pub numbers: [usize; 5],
}

// The first place from `at` on whose byte does not pass, or the end.
fn stop_at<F: Fn(u8) -> bool>(passes: F, s: &[u8], at: usize) -> usize
    requires { F.IsAlwaysCallable passes }
    ensures { (p : ℕ → Bool) → Tells (F.post passes) p → result ≡ stop p s.now at }
{
    for i in at..s.len() {
        if !passes(s[i]) {
            return i;
        }
    }
    at.max(s.len())
}

// The first line that is not empty, for a cursor at the start of a line or at its LF.
pub fn next_line(s: &[u8], c: Cursor) -> Span
    ensures { LineAt s.now c.at result.first result.last }
{
    let first = stop_at(|x| x == b'\n', s, c.at);
    let last = stop_at(|x| x != b'\n', s, first);
    Span { first, last }
}

// Where the last token of a line starts.
pub fn last_token(l: &[u8]) -> usize
    ensures { LastToken l.now result }
{
    for i in (0..l.len()).rev() {
        if l[i] == b' ' {
            return i + 1;
        }
    }
    0
}

// The number with these digits.
fn value(l: &[u8], from: usize, to: usize) -> usize
    requires { Digits l.now from to }
    ensures { result ≡ value_of (slice from to l.now) }
{
    let mut n = 0;
    for x in &l[from..to] {
        n = 10 * n + usize::from(*x - b'0');
    }
    n
}

// Whether a token of n bytes, all digits or not, with this first byte, is a number.
fn good_number(digits: bool, n: usize, first: u8) -> bool
    ensures { result ≡ digits && leb 1 n && leb n 9 && (not (eqb first 48) || eqb n 1) }
{
    digits && 1 <= n && n <= 9 && (first != b'0' || n == 1)
}

// The number at a cursor: its value and the place after it.
pub fn read_number(l: &[u8], c: Cursor) -> Option<(usize, Cursor)>
    ensures { result ≡ number_at l.now c.at }
{
    let at = c.at;
    let digits = stop_at(|x| x.is_ascii_digit(), l, at);
    let end = stop_at(|x| x != b' ', l, digits);
    if end <= at {
        return None;
    }
    if !good_number(digits == end, end - at, l[at]) {
        return None;
    }
    Some((value(l, at, end), Cursor { at: end }))
}

// A number that a space follows, and the place after the space.
pub fn read_field(l: &[u8], c: Cursor) -> Option<(usize, Cursor)>
    ensures { result ≡ field_at l.now c.at }
{
    let (n, next) = read_number(l, c)?;
    let at = next.at;
    if l.len() <= at {
        return None;
    }
    Some((n, Cursor { at: at + 1 }))
}

// The numbers before a line's last token, or that not only numbers stand there.
pub fn read_fields(l: &[u8]) -> Option<Fields>
    ensures { FieldsTold l.now result }
{
    let mut numbers = [0; 5];
    let mut at = 0;
    let mut count = 0;
    // A `for` is no plainer: each step goes to where `read_field` ends.
    while at < l.len() {
        let Some((n, next)) = read_field(l, Cursor { at }) else {
            if stop_at(|x| x != b' ', l, at) < l.len() {
                return None;
            }
            return Some(Fields { count, numbers });
        };
        if count < 5 {
            numbers[count] = n;
        }
        at = next.at;
        count += 1;
    }
    Some(Fields { count, numbers })
}
