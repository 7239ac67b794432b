// The numbers of parties: document 01, and document 02, order 13.
#![tactic(auto)]

ghost use Rattle.std.specs.Prelude.{◌≡◌};
ghost use Rattle.parties.specs.Parties.{counted};

// The height of the tree for n parties; None where n is no party count.
#[tactic(auto, unfolding(crate::specs::Parties::height_of, crate::specs::Parties::counted))]
pub fn height(n: u32) -> Option<u32>
    ensures { result ≡ counted n }
{
    match n {
        2 => Some(1),
        4 => Some(2),
        8 => Some(3),
        16 => Some(4),
        32 => Some(5),
        64 => Some(6),
        _ => None,
    }
}
