// The nodes of the masters' tree, and which of them are opened.
ghost use Rattle.std.specs.Prelude.{◌≡◌, suc, ◌^◌, ◌≤◌, ◌<◌, length};
ghost use Rattle.cover.specs.Masters.{height as «height-of», cover_bytes};
ghost use Rattle.choice.specs.Challenge.{max_instances};
ghost use Rattle.proof.specs.File.{hides};
ghost use Rattle.proof.specs.Steps.{asks_in, marks_in, master_in};

use crate::Counts;
use bits::row;
use cover::{height, leaves};
use growing::{mark, opened_before};

// The rows of the tree over m masters.
pub fn row_count(m: u32) -> usize
    requires { m ≤ max_instances }
    ensures { (result ≡ 2 ^ suc («height-of» m)) × (result ≤ 1024) }
{
    2 * leaves(height(m))
}

// Marks the nodes by the table, and gives the bytes of the opened ones.
pub fn mark_nodes(k: Counts, table: &[u8], marks: &mut [u8]) -> usize
    requires { (k.instances ≤ max_instances) × ((k.parties < 256) × ((length table.now ≡ k.instances) × (length marks.old ≡ 2 ^ suc («height-of» k.instances)))) }
    ensures value { result ≡ cover_bytes k.instances (hides (asks_in k.parties table.now)) }
    ensures marks_after { marks.new ≡ marks_in k.instances k.parties table.now }
{
    let m = k.instances;
    let n = k.parties;
    mark(height(m), table, n as u8, m as usize, marks);
    16 * opened_before(marks, marks.len())
}

// The master of instance j, in its row.
pub fn master(nodes: &[u8], j: u32) -> &[u8]
    requires { j ≤ max_instances }
    ensures { result.now ≡ master_in nodes.now j }
{
    let at = nodes.len() / 32 + (j as usize);
    row(nodes, 16, at)
}
