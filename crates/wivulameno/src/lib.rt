// The C interface, built as the static library libwivulameno.a; its header is include/wivulameno.h.
// Each function returns 0 for success, or the number of a refusal; only wv_fault_slot and wv_upgrade_slot a slot, and
// wv_version the version. No logic of its own.
#![tactic(auto)]

ghost use Rattle.std.specs.Prelude.{◌≡◌, [], ◌∷◌, length};
ghost use Rattle.refusal.specs.Outcome.{told};
ghost use Rattle.circuit.specs.Operations.{read_op, evaluate_op};
ghost use Rattle.bristol.specs.Operations.{convert_op};
ghost use Rattle.upgrade.specs.Upgrade.{upgrade_op};
ghost use Rattle.join.specs.Join.{join_op};
ghost use Rattle.small.specs.Small.{small_op};
ghost use Rattle.one_of.specs.OneOf.{one_of_op};
ghost use Rattle.mpc.specs.Operations.{prepare_op, run_op, show_op, replay_op};
ghost use Rattle.proof.specs.Prove.{prove_op};
ghost use Rattle.proof.specs.Check.{check_op};
ghost use Rattle.shared_bytes.specs.Operations.{start_op, enter_op, call_op};
ghost use Rattle.shelf.specs.Operations.{stock_op, draw_op};
ghost use Rattle.seeds.specs.Operations.{expand_op, open_op, masters_op, cover_op, challenge_op};
ghost use Rattle.wivulameno.specs.Interface.{status, values, slot, length_told};
ghost use Rattle.keccak.specs.Sponge.{«sha3_256», «shake128», «shake256»};

use refusal::Refusal;

// The status of an operation that tells no numbers.
fn status(r: Result<(), Refusal>) -> u32
    ensures { result ≡ status (told (λ _. []) r) }
{
    match r {
        Ok(()) => 0,
        Err(k) => k.into(),
    }
}

// The status of an operation that tells a length, and the length.
fn tell(r: Result<usize, Refusal>, written: &mut [u64; 1]) -> u32
    ensures { (result ≡ status (told (λ k. k ∷ []) r)) × (written.new ≡ values (told (λ k. k ∷ []) r) written.old) }
{
    match r {
        Ok(k) => {
            *written = [k as u64];
            0
        }
        Err(k) => k.into(),
    }
}

// The version of this library, 65536 times its major number, 256 times its minor number and its patch number: 0.1.0.
#[unsafe(no_mangle)]
pub extern "C" fn wv_version() -> u32
    ensures { result ≡ 256 }
{
    256
}

// SHA3-256 of the data, into 32 lent bytes.
#[unsafe(no_mangle)]
pub extern "C" fn wv_sha3_256(data: &[u8], digest: &mut [u8; 32]) -> u32
    ensures { (result ≡ 0) × (digest.new ≡ «sha3_256» «data».now) }
{
    *digest = keccak::sha3_256(data);
    0
}

// SHAKE128 of the data, as long as the lent output.
#[unsafe(no_mangle)]
pub extern "C" fn wv_shake128(data: &[u8], out: &mut [u8]) -> u32
    ensures { (result ≡ 0) × (out.new ≡ «shake128» «data».now (length out.old)) }
{
    keccak::shake128(data, out);
    0
}

// SHAKE256 of the data, as long as the lent output.
#[unsafe(no_mangle)]
pub extern "C" fn wv_shake256(data: &[u8], out: &mut [u8]) -> u32
    ensures { (result ≡ 0) × (out.new ≡ «shake256» «data».now (length out.old)) }
{
    keccak::shake256(data, out);
    0
}

// Reads a circuit: I, O, G and A, or the refusal.
#[unsafe(no_mangle)]
pub extern "C" fn wv_read(circuit: &[u8], sizes: &mut [u32; 4]) -> u32
    ensures { (result ≡ status (read_op circuit.now)) × (sizes.new ≡ values (read_op circuit.now) sizes.old) }
{
    match reading::read(circuit) {
        Ok(z) => {
            *sizes = [
                z.inputs as u32,
                z.outputs as u32,
                z.gates as u32,
                z.ands as u32,
            ];
            0
        }
        Err(f) => f.refusal.into(),
    }
}

// The slot that refusals 19, 20 and 21 of a circuit tell; 0 for every other reading.
#[unsafe(no_mangle)]
pub extern "C" fn wv_fault_slot(circuit: &[u8]) -> u32
    ensures { result ≡ slot (read_op circuit.now) }
{
    match reading::read(circuit) {
        Ok(_) => 0,
        Err(f) => f.slot as u32,
    }
}

// Converts a Bristol Fashion text to a circuit file: its length, or the refusal.
#[unsafe(no_mangle)]
pub extern "C" fn wv_bristol(text: &[u8], out: &mut [u8], written: &mut [u64; 1]) -> u32
    ensures { (result ≡ status (convert_op text.now out.old).answer) × ((written.new ≡ values (convert_op text.now out.old).answer written.old) × (out.new ∷ [] ≡ (convert_op text.now out.old).left)) }
{
    tell(bristol::conversion::convert(text, out), written)
}

// Converts a circuit file of the old form: the new file's length, or the refusal.
#[unsafe(no_mangle)]
pub extern "C" fn wv_upgrade(old: &[u8], out: &mut [u8], written: &mut [u64; 1]) -> u32
    ensures { (result ≡ status (upgrade_op old.now out.old).answer) × ((written.new ≡ values (upgrade_op old.now out.old).answer written.old) × (out.new ∷ [] ≡ (upgrade_op old.now out.old).left)) }
{
    match upgrade::upgrade(old, out) {
        Ok(k) => {
            *written = [k as u64];
            0
        }
        Err(f) => f.refusal.into(),
    }
}

// The slot that refusals 19, 20 and 21 of a file of the old form tell; 0 for every other file.
#[unsafe(no_mangle)]
pub extern "C" fn wv_upgrade_slot(old: &[u8]) -> u32
    ensures { result ≡ slot (upgrade_op old.now []).answer }
{
    let mut none = [0u8; 1];
    match upgrade::upgrade(old, &mut none[..0]) {
        Ok(_) => 0,
        Err(f) => f.slot as u32,
    }
}

// Joins two circuits with the same inputs: the joined file's length, or the refusal. The two may be the same file.
#[unsafe(no_mangle)]
pub extern "C" fn wv_join(
    first: &[u8],
    second: &[u8],
    out: &mut [u8],
    written: &mut [u64; 1],
) -> u32
    ensures { (result ≡ status (join_op first.now second.now out.old).answer) × ((written.new ≡ values (join_op first.now second.now out.old).answer written.old) × (out.new ∷ [] ≡ (join_op first.now second.now out.old).left)) }
{
    tell(join::join(first, second, out), written)
}

// The small circuit at a place: its file's length, 0 where the last has passed, or the refusal.
#[unsafe(no_mangle)]
pub extern "C" fn wv_small(
    inputs: u32,
    outputs: u32,
    gates: u32,
    place: u64,
    out: &mut [u8],
    written: &mut [u64; 1],
) -> u32
    ensures { (result ≡ status (small_op inputs outputs gates place out.old).answer) × ((written.new ≡ length_told (small_op inputs outputs gates place out.old).answer written.old) × (out.new ∷ [] ≡ (small_op inputs outputs gates place out.old).left)) }
{
    match small::small(inputs, outputs, gates, place, out) {
        Ok(k) => {
            *written = [k.unwrap_or(0) as u64];
            0
        }
        Err(k) => k.into(),
    }
}

// Builds the circuit with one output, 1 exactly if the old output is in the list: its file's length, or the refusal.
#[unsafe(no_mangle)]
pub extern "C" fn wv_one_of(
    circuit: &[u8],
    list: &[u8],
    out: &mut [u8],
    written: &mut [u64; 1],
) -> u32
    ensures { (result ≡ status (one_of_op circuit.now list.now out.old).answer) × ((written.new ≡ values (one_of_op circuit.now list.now out.old).answer written.old) × (out.new ∷ [] ≡ (one_of_op circuit.now list.now out.old).left)) }
{
    tell(one_of::one_of(circuit, list, out), written)
}

// Evaluates a circuit on a witness, into y.
#[unsafe(no_mangle)]
pub extern "C" fn wv_evaluate(circuit: &[u8], witness: &[u8], y: &mut [u8]) -> u32
    ensures { (result ≡ status (evaluate_op circuit.now witness.now y.old).answer) × (y.new ∷ [] ≡ (evaluate_op circuit.now witness.now y.old).left) }
{
    status(evaluation::evaluate(circuit, witness, y))
}

// Prepares the corrections from the tapes of n parties.
#[unsafe(no_mangle)]
pub extern "C" fn wv_prepare(
    circuit: &[u8],
    n: u32,
    tapes: &[u8],
    corrections: &mut [u8],
    work: &mut [u8],
) -> u32
    ensures { (result ≡ status (prepare_op circuit.now n tapes.now corrections.old work.old).answer) × (corrections.new ∷ work.new ∷ [] ≡ (prepare_op circuit.now n tapes.now corrections.old work.old).left) }
{
    status(mpc::preparing::prepare(circuit, n, tapes, corrections, work))
}

// Runs the circuit on a witness: masked inputs, n broadcast rows and y.
#[unsafe(no_mangle)]
pub extern "C" fn wv_run(
    circuit: &[u8],
    n: u32,
    witness: &[u8],
    tapes: &[u8],
    corrections: &[u8],
    masked: &mut [u8],
    rows: &mut [u8],
    y: &mut [u8],
    work: &mut [u8],
) -> u32
    ensures { (result ≡ status (run_op circuit.now n witness.now tapes.now corrections.now masked.old rows.old y.old work.old).answer) × (masked.new ∷ rows.new ∷ y.new ∷ work.new ∷ [] ≡ (run_op circuit.now n witness.now tapes.now corrections.now masked.old rows.old y.old work.old).left) }
{
    status(mpc::running::run(
        circuit,
        n,
        witness,
        tapes,
        corrections,
        masked,
        rows,
        y,
        work,
    ))
}

// Shows the run with party p hidden, cut after some gates: tapes, corrections, masked inputs and row p.
#[unsafe(no_mangle)]
pub extern "C" fn wv_show(
    circuit: &[u8],
    n: u32,
    p: u32,
    cut: u32,
    witness: &[u8],
    tapes: &[u8],
    blanked: &mut [u8],
    corrections: &mut [u8],
    masked: &mut [u8],
    row: &mut [u8],
    work: &mut [u8],
) -> u32
    ensures { (result ≡ status (show_op circuit.now n p cut witness.now tapes.entry.now (record { tapes = blanked.old; corrections = corrections.old; masked_inputs = masked.old; row = row.old }) work.old).answer) × (blanked.new ∷ corrections.new ∷ masked.new ∷ row.new ∷ work.new ∷ [] ≡ (show_op circuit.now n p cut witness.now tapes.entry.now (record { tapes = blanked.old; corrections = corrections.old; masked_inputs = masked.old; row = row.old }) work.old).left) }
{
    status(showing::show(
        circuit,
        n,
        p,
        cut,
        witness,
        tapes,
        blanked,
        corrections,
        masked,
        row,
        work,
    ))
}

// Replays an opened run: n broadcast rows, where its output is y.
#[unsafe(no_mangle)]
pub extern "C" fn wv_replay(
    circuit: &[u8],
    n: u32,
    p: u32,
    tapes: &[u8],
    corrections: &[u8],
    masked: &[u8],
    row: &[u8],
    y: &[u8],
    rows: &mut [u8],
    work: &mut [u8],
) -> u32
    ensures { (result ≡ status (replay_op circuit.now n p (record { tapes = tapes.entry.now; corrections = corrections.now; masked_inputs = masked.now; row = row.now }) y.now rows.old work.old).answer) × (rows.new ∷ work.new ∷ [] ≡ (replay_op circuit.now n p (record { tapes = tapes.entry.now; corrections = corrections.now; masked_inputs = masked.now; row = row.now }) y.now rows.old work.old).left) }
{
    status(replaying::replay(
        circuit,
        n,
        p,
        tapes,
        corrections,
        masked,
        row,
        y,
        rows,
        work,
    ))
}

// Proves that the circuit gives y on the witness: the proof, and the length written.
#[unsafe(no_mangle)]
pub extern "C" fn wv_prove(
    circuit: &[u8],
    witness: &[u8],
    y: &[u8],
    message: &[u8],
    root: &[u8],
    salt: &[u8],
    m: u32,
    tau: u32,
    n: u32,
    proof: &mut [u8],
    written: &mut [u64; 1],
    work: &mut [u8],
) -> u32
    ensures { (result ≡ status (prove_op circuit.now witness.now y.now message.now root.now salt.now m tau n proof.old work.old).answer) × ((written.new ≡ values (prove_op circuit.now witness.now y.now message.now root.now salt.now m tau n proof.old work.old).answer written.old) × (proof.new ∷ work.new ∷ [] ≡ (prove_op circuit.now witness.now y.now message.now root.now salt.now m tau n proof.old work.old).left)) }
{
    tell(
        proving::prove(
            circuit, witness, y, message, root, salt, m, tau, n, proof, work,
        ),
        written,
    )
}

// Checks a proof that the circuit gives y on some witness, under the message.
#[unsafe(no_mangle)]
pub extern "C" fn wv_check(
    circuit: &[u8],
    y: &[u8],
    message: &[u8],
    proof: &[u8],
    work: &mut [u8],
) -> u32
    ensures { (result ≡ status (check_op circuit.now y.now message.now proof.now work.old).answer) × (work.new ∷ [] ≡ (check_op circuit.now y.now message.now proof.now work.old).left) }
{
    status(checking::check(circuit, y, message, proof, work))
}

// Puts the empty state of a shared checker into the lent bytes.
#[unsafe(no_mangle)]
pub extern "C" fn wv_shared_start(state: &mut [u8; 7537]) -> u32
    ensures { (result ≡ status start_op.answer) × (state.new ∷ [] ≡ start_op.left) }
{
    shared_bytes::start(state);
    0
}

// Enters a caller's proof into a shared checker, whose state is the lent bytes. The numbers of `places` are start and length of circuit, y,
// message and proof in the buffer.
#[unsafe(no_mangle)]
pub extern "C" fn wv_shared_enter(
    state: &mut [u8; 7537],
    caller: u32,
    places: &[u64; 8],
    buffer: &[u8],
    work: &mut [u8],
) -> u32
    ensures { (result ≡ status (enter_op state.old caller places.now buffer.now work.old).answer) × (state.new ∷ work.new ∷ [] ≡ (enter_op state.old caller places.now buffer.now work.old).left) }
{
    status(shared_bytes::enter(state, caller, places, buffer, work))
}

// Checks a quota of instances of the proofs that wait in a shared checker: how many were checked, and each caller's verdict, 255 for none in
// this call, 0 for accepted, else the number.
#[unsafe(no_mangle)]
pub extern "C" fn wv_shared_check(
    state: &mut [u8; 7537],
    quota: u32,
    buffer: &[u8],
    checked: &mut [u32; 1],
    verdicts: &mut [u8; 16],
    work: &mut [u8],
) -> u32
    ensures { (result ≡ status (call_op state.old quota buffer.now verdicts.old work.old).answer) × ((checked.new ≡ values (call_op state.old quota buffer.now verdicts.old work.old).answer checked.old) × (state.new ∷ verdicts.new ∷ work.new ∷ [] ≡ (call_op state.old quota buffer.now verdicts.old work.old).left)) }
{
    match shared_bytes::check(state, quota, buffer, verdicts, work) {
        Ok(n) => {
            *checked = [n];
            0
        }
        Err(k) => k.into(),
    }
}

// Stocks a root on the shelf's page.
#[unsafe(no_mangle)]
pub extern "C" fn wv_stock(page: &mut [u8], root: &[u8]) -> u32
    ensures { (result ≡ status (stock_op page.old root.now).answer) × (page.new ∷ [] ≡ (stock_op page.old root.now).left) }
{
    status(shelf::stock(page, root))
}

// Draws a root from the shelf's page; count is that of the host's log. The lent root stays as it was on a refusal.
#[unsafe(no_mangle)]
pub extern "C" fn wv_draw(page: &mut [u8], count: u64, root: &mut [u8; 16]) -> u32
    ensures { (result ≡ status (draw_op page.old count).answer) × ((root.new ≡ values (draw_op page.old count).answer root.old) × (page.new ∷ [] ≡ (draw_op page.old count).left)) }
{
    match shelf::draw(page, count) {
        Ok(drawn) => {
            *root = drawn;
            0
        }
        Err(k) => k.into(),
    }
}

// Expands the tree of instance j from its master into its n leaves.
#[unsafe(no_mangle)]
pub extern "C" fn wv_expand(j: u32, n: u32, salt: &[u8], master: &[u8], leaves: &mut [u8]) -> u32
    ensures { (result ≡ status (expand_op j n salt.now master.now leaves.old).answer) × (leaves.new ∷ [] ≡ (expand_op j n salt.now master.now leaves.old).left) }
{
    status(seeds::expand(j, n, salt, master, leaves))
}

// Opens all leaves but p of the tree of instance j.
#[unsafe(no_mangle)]
pub extern "C" fn wv_open(
    j: u32,
    n: u32,
    p: u32,
    salt: &[u8],
    master: &[u8],
    siblings: &mut [u8],
) -> u32
    ensures { (result ≡ status (open_op j n p salt.now master.now siblings.old).answer) × (siblings.new ∷ [] ≡ (open_op j n p salt.now master.now siblings.old).left) }
{
    status(seeds::open(j, n, p, salt, master, siblings))
}

// Makes the masters of m instances from the root.
#[unsafe(no_mangle)]
pub extern "C" fn wv_masters(m: u32, salt: &[u8], root: &[u8], out: &mut [u8]) -> u32
    ensures { (result ≡ status (masters_op m salt.now root.now out.old).answer) × (out.new ∷ [] ≡ (masters_op m salt.now root.now out.old).left) }
{
    status(seeds::masters(m, salt, root, out))
}

// Opens the tree over m masters with the listed leaves hidden, a u16 each.
#[unsafe(no_mangle)]
pub extern "C" fn wv_cover(m: u32, hidden: &[u8], salt: &[u8], root: &[u8], out: &mut [u8]) -> u32
    ensures { (result ≡ status (cover_op m hidden.now salt.now root.now out.old).answer) × (out.new ∷ [] ≡ (cover_op m hidden.now salt.now root.now out.old).left) }
{
    status(seeds::cover(m, hidden, salt, root, out))
}

// Derives the challenge from h*, bound to the salt, the counts, the digest of the circuit file, y and the message.
#[unsafe(no_mangle)]
pub extern "C" fn wv_challenge(
    m: u32,
    tau: u32,
    n: u32,
    hstar: &[u8],
    salt: &[u8],
    digest: &[u8],
    y: &[u8],
    message: &[u8],
    out: &mut [u8],
) -> u32
    ensures { (result ≡ status (challenge_op m tau n hstar.now salt.now digest.now y.now message.now out.old).answer) × (out.new ∷ [] ≡ (challenge_op m tau n hstar.now salt.now digest.now y.now message.now out.old).left) }
{
    status(seeds::challenge(m, tau, n, hstar, salt, digest, y, message, out))
}
