// The state of the shared checker as bytes.
//
// The state is 7,537 bytes, numbers little-endian:
//   0         with whom to begin: 0 at first, then one above the caller served last
//   1         16 slots of 471 bytes, a slot for each caller
// A slot:
//   0         1 where the caller waits; an idle slot is all zero
//   1         where circuit, y, message and proof lie: start and length of each, u64
//   65        the number of the next instance, u32
//   69        the sponge of h: 25 lanes, u64, and the fill, a byte
//   270       the sponge of h', likewise
// Every string of 7,537 bytes is a state: a first byte above 16 counts as 0, a slot's first byte other than 0 as 1, and a fill is taken
// modulo the rate, 136.
#![tactic(auto)]

pub mod decoding;
pub mod writing;

// The bytes of the state.
pub const STATE_BYTES: usize = 7537;

// The bytes of a slot.
pub const SLOT_BYTES: usize = 471;
