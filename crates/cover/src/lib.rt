// The tree over the masters: how its hashes name it, its height and its leaves; and which of its nodes are opened for a set of hidden leaves.
#![tactic(auto)]

ghost use Rattle.std.specs.Prelude.{◌≡◌, ◌^◌, ◌≤◌};
ghost use Rattle.cover.specs.Masters.{height as «height-of», masters_context};

use hashing::Context;

// What stands for an instance in the node rule of the tree over the masters.
const MASTERS: u32 = 65535;

// The tree over the masters, as its hashes name it.
pub fn masters_tree(salt: [u8; 32]) -> Context
    ensures { result ≡ masters_context salt }
{
    Context {
        salt,
        number: MASTERS,
    }
}

// The height of the tree over m masters.
pub fn height(m: u32) -> u32
    requires { m ≤ 512 }
    ensures { result ≡ «height-of» m }
{
    m.next_power_of_two().ilog2()
}

// The leaves of a tree of height h.
pub fn leaves(h: u32) -> usize
    requires { h ≤ 15 }
    ensures { result ≡ 2 ^ h }
{
    1 << h
}
