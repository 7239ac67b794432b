// One service of the shared checker: the next instance of a waiting proof.
#![tactic(auto)]

ghost use Rattle.std.specs.Prelude.{◌≡◌, ◌+◌, ◌*◌, ◌≤◌, ◌<◌, length};
ghost use Rattle.circuit.specs.File.{circuit_of};
ghost use Rattle.masks.specs.Steps.{wire_count};
ghost use Rattle.proof_tests.specs.Steps.{Tested};
ghost use Rattle.proof.specs.File.{header_bytes, header_m};
ghost use Rattle.proof.specs.Steps.{asks_in};
ghost use Rattle.shared.specs.Service.{settled as «settled-of», settled_both, after_instance, next_instance};
ghost use Rattle.refusal.specs.Refusal.{number_of};
ghost use Rattle.schedule.specs.Schedule.{finished};
ghost use Rattle.shared.specs.Steps.{outcome_of, ReadyAt, instance_at};

use keccak::sponge::Sponge;
use proof::nodes::row_count;
use proof_tests::Shape;
use refusal::Refusal;
use shared::entering::part;
use shared::{Job, Served};
use stepping::{Running, check_one, same_hstar, take_digests};

// A proof that is refused.
pub fn refused(k: Refusal) -> Served
    ensures { outcome_of result ≡ finished (number_of k) }
{
    Served::Finished(Err(k))
}

// A sponge's fill is below its rate.
fn settled(s: Sponge) -> Sponge
    ensures { result ≡ «settled-of» s }
{
    let lanes = s.lanes;
    Sponge {
        lanes,
        fill: s.fill % 136,
    }
}

fn settled_both(d: Running) -> Running
    ensures { (result ≡ settled_both d) × ((result.commitments.fill < 136) × (result.online.fill < 136)) }
{
    Running {
        commitments: settled(d.commitments),
        online: settled(d.online),
    }
}

// The proof with the digests of its next instance taken in: it goes on, or h* decides.
fn taken_in(job: Job, d: Running, m: u32, proof: &[u8]) -> Served
    requires { ((d.commitments.fill < 136) × (d.online.fill < 136)) × ((header_bytes ≤ length proof.now) × ((m ≡ header_m proof.now) × (job.next < m))) }
    ensures { outcome_of result ≡ after_instance proof.now job d }
{
    let places = job.places;
    let next = job.next + 1;
    if next < m {
        return Served::GoesOn(Job {
            places,
            next,
            digests: d,
        });
    }
    if same_hstar(d, proof) {
        return Served::Finished(Ok(()));
    }
    refused(Refusal::Digest)
}

// Checks the next instance of a proof that passes all tests that need no run. The table and the marks are those of its challenge.
fn serve_tested(
    job: Job,
    s: &[u8],
    f: Shape,
    table: &[u8],
    marks: &[u8],
    y: &[u8],
    proof: &[u8],
    memory: &mut [u8],
) -> Served
    requires { Tested s.now f proof.now table.now marks.now × ((64 * wire_count f.sizes + 4096 ≤ length memory.old) × (f.counts.instances ≡ header_m proof.now)) }
    ensures { outcome_of result ≡ next_instance (circuit_of s.now) f.counts.instances f.counts.parties (asks_in f.counts.parties table.now) y.now proof.now job }
{
    let k = f.counts;
    let m = k.instances;
    let j = job.next;
    if j >= m {
        return refused(Refusal::Digest);
    }
    let r = check_one(s, f, table, marks, y, proof, j, memory);
    if !r.agrees {
        return refused(Refusal::Output);
    }
    let digests = job.digests;
    let d = settled_both(digests);
    let e = take_digests(d, r);
    taken_in(job, e, m, proof)
}

// The same of a proof whose inputs lie at its places in the buffer, with the table and the marks that its tests have left.
pub fn serve_ready(
    job: Job,
    f: Shape,
    buffer: &[u8],
    table: &[u8],
    marks: &[u8],
    work: &mut [u8],
) -> Served
    requires { ReadyAt f buffer.now job.places table.now marks.now × (6436864 ≤ length work.old) }
    ensures { outcome_of result ≡ instance_at buffer.now job }
{
    let p = job.places;
    let s = part(buffer, p.circuit);
    let y = part(buffer, p.y);
    let proof = part(buffer, p.proof);
    let k = f.counts;
    let c = k.instances as usize;
    let r = row_count(k.instances);
    serve_tested(job, s, f, &table[..c], &marks[..r], y, proof, work)
}
