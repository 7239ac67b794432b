// Inputs of less than a block, closed: the lanes of the sponge that has taken them in and their padding, made of their parts at once.
#![tactic(auto)]

ghost use Rattle.std.specs.Prelude.{◌≡◌, length};
ghost use Rattle.keccak.specs.Steps.{empty, absorbs, closed};
ghost use Rattle.hashing.specs.Inputs.{node_input};
ghost use Rattle.short.specs.Steps.{key_input};

use bits::read_u64;
use hashing::Context;

// The lanes of the closed sponge of SHAKE128 that has taken in node k, with its value.
pub fn close_node(j: Context, k: u32, value: &[u8]) -> [u64; 25]
    requires { length value.now ≡ 16 }
    ensures { result ≡ (closed 168 0x1f (absorbs 168 empty (node_input j k value.now))).lanes }
{
    let salt = j.salt;
    let n = (j.number % 65536) as u64;
    let x = (k % 65536) as u64;
    let last = salt[31] as u64;
    [
        (read_u64(&salt, 0) << 8) + 2,
        read_u64(&salt, 7),
        read_u64(&salt, 15),
        read_u64(&salt, 23),
        (read_u64(value, 0) << 40) + (x << 24) + (n << 8) + last,
        read_u64(value, 3),
        (read_u64(value, 8) >> 24) + 0x1f0000000000,
        0,
        0,
        0,
        0,
        0,
        0,
        0,
        0,
        0,
        0,
        0,
        0,
        0,
        0x8000000000000000,
        0,
        0,
        0,
        0,
    ]
}

// The lanes of the closed sponge of SHAKE128 that has taken in what party i derives under a tag, from a key of 16 bytes.
pub fn close_key(tag: u8, j: Context, i: u32, key: &[u8]) -> [u64; 25]
    requires { length key.now ≡ 16 }
    ensures { result ≡ (closed 168 0x1f (absorbs 168 empty (key_input tag j i key.now))).lanes }
{
    let salt = j.salt;
    let n = (j.number % 65536) as u64;
    let x = (i % 256) as u64;
    let last = salt[31] as u64;
    [
        (read_u64(&salt, 0) << 8) + (tag as u64),
        read_u64(&salt, 7),
        read_u64(&salt, 15),
        read_u64(&salt, 23),
        (read_u64(key, 0) << 32) + (x << 24) + (n << 8) + last,
        read_u64(key, 4),
        (read_u64(key, 8) >> 32) + 0x1f00000000,
        0,
        0,
        0,
        0,
        0,
        0,
        0,
        0,
        0,
        0,
        0,
        0,
        0,
        0x8000000000000000,
        0,
        0,
        0,
        0,
    ]
}

// The lanes of the closed sponge of SHA3-256 that has taken in what the commitment of party i, not party n − 1, hashes; the row is its
// seed and its r.
pub fn close_commitment(j: Context, i: u32, row: &[u8]) -> [u64; 25]
    requires { length row.now ≡ 32 }
    ensures { result ≡ (closed 136 0x06 (absorbs 136 empty (key_input 1 j i row.now))).lanes }
{
    let salt = j.salt;
    let n = (j.number % 65536) as u64;
    let x = (i % 256) as u64;
    let last = salt[31] as u64;
    [
        (read_u64(&salt, 0) << 8) + 1,
        read_u64(&salt, 7),
        read_u64(&salt, 15),
        read_u64(&salt, 23),
        (read_u64(row, 0) << 32) + (x << 24) + (n << 8) + last,
        read_u64(row, 4),
        read_u64(row, 12),
        read_u64(row, 20),
        (read_u64(row, 24) >> 32) + 0x0600000000,
        0,
        0,
        0,
        0,
        0,
        0,
        0,
        0x8000000000000000,
        0,
        0,
        0,
        0,
        0,
        0,
        0,
        0,
    ]
}
