// The refusals of document 01, "Each operation's refusals, in order", and of document 02, and their numbers. 4 is given by nothing.
#![tactic(auto)]

ghost use Rattle.std.specs.Prelude.{◌≡◌};
ghost use Rattle.refusal.specs.Refusal.{number_of};

// Why an operation refuses. The sentences are the document's.
#[derive(Clone, Copy)]
pub enum Refusal {
    // 1: under 16 bytes; total not 16 + 4O + 16G (the circuit file, by order 7).
    Length,
    // 2: I, O or G beyond limits.
    Limits,
    // 3: a record with another kind, or INV with b not 0.
    Record,
    // 5: a wire not written by then, or an output wire at or above I + G.
    Wire,
    // 6: a lent length not as stated.
    BufferLength,
    // 7: a nonzero unused bit; a nonzero hidden row, or nonzero corrections with p = n − 1.
    UnusedBits,
    // 8: n; M, τ, n (a number beyond its limits).
    Parameter,
    // 9: p at or above n or a cut above G; an empty hidden set, or a leaf at or above M.
    Index,
    // 10: the output differs from y; the witness does not give y.
    Output,
    // 11: a header under 70 bytes, out of limits or with its zero byte not 0 (the proof file).
    Header,
    // 12: a length other than h* implies.
    ProofLength,
    // 13: the recomputed h* differs.
    Digest,
    // 14: an unsound shelf.
    Shelf,
    // 15: the host's count is not draws.
    Count,
    // 16: the ready chain is empty.
    Empty,
    // 17: the spare chain is empty.
    Full,
    // 18: draws is 4,294,967,295.
    Exhausted,
    // 19: a link beyond G.
    BeyondGates,
    // 20: an end before all G slots are visited.
    EndsEarly,
    // 21: a link other than 0 after G slots.
    GoesOn,
    // 22: text that breaks these rules, as any line too many.
    Text,
    // 23: a gate kind other than XOR, AND, INV.
    GateKind,
    // 24: sizes beyond our limits.
    TextLimits,
    // 25: the input counts differ.
    InputCounts,
    // 26: a caller beyond 15.
    CallerNumber,
    // 27: a caller already waiting.
    AlreadyWaiting,
    // 28: no proof waiting.
    NoneWaiting,
    // 29: a size beyond these (small circuits: I of 1 or 2, O = 1 and G up to 2).
    SmallSizes,
    // 30: an empty list or over 16·oct(O) bytes.
    ListLength,
}

// The number that the documents give a refusal.
impl From<Refusal> for u32 {
    ghost from_gives = { λ r n. n ≡ number_of r };

    fn from(r: Refusal) -> u32 {
        match r {
            Refusal::Length => 1,
            Refusal::Limits => 2,
            Refusal::Record => 3,
            Refusal::Wire => 5,
            Refusal::BufferLength => 6,
            Refusal::UnusedBits => 7,
            Refusal::Parameter => 8,
            Refusal::Index => 9,
            Refusal::Output => 10,
            Refusal::Header => 11,
            Refusal::ProofLength => 12,
            Refusal::Digest => 13,
            Refusal::Shelf => 14,
            Refusal::Count => 15,
            Refusal::Empty => 16,
            Refusal::Full => 17,
            Refusal::Exhausted => 18,
            Refusal::BeyondGates => 19,
            Refusal::EndsEarly => 20,
            Refusal::GoesOn => 21,
            Refusal::Text => 22,
            Refusal::GateKind => 23,
            Refusal::TextLimits => 24,
            Refusal::InputCounts => 25,
            Refusal::CallerNumber => 26,
            Refusal::AlreadyWaiting => 27,
            Refusal::NoneWaiting => 28,
            Refusal::SmallSizes => 29,
            Refusal::ListLength => 30,
        }
    }
}
