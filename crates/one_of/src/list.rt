// The entries of a list of outputs.
ghost use Rattle.std.specs.Prelude.{◌≡◌};
ghost use Rattle.one_of.specs.OneOf.{repeated, unused_entries};

// Whether entry e was listed before.
pub(crate) fn repeated(list: &[u8], outputs: usize, e: usize) -> bool
    ensures { result ≡ repeated outputs list.now e }
{
    let len = bits::oct(outputs);
    let entry = bits::row(list, len, e);
    for i in 0..e {
        let other = bits::row(list, len, i);
        if bits::same(other, entry) {
            return true;
        }
    }
    false
}

// Whether the unused bits of the first n entries are zero.
pub(crate) fn unused_entries(list: &[u8], outputs: usize, n: usize) -> bool
    ensures { result ≡ unused_entries outputs list.now n }
{
    let len = bits::oct(outputs);
    for e in 0..n {
        let entry = bits::row(list, len, e);
        if !bits::unused_zero(entry, outputs) {
            return false;
        }
    }
    true
}
