// The work buffer that an operation is lent.
ghost use Rattle.std.specs.Prelude.{◌≡◌, ◌≤◌};
ghost use Rattle.circuit.specs.File.{max_inputs, max_gates};
ghost use Rattle.mpc.specs.Steps.{memory_bytes};

use circuit::Sizes;

// The bytes of the work buffer that a circuit needs.
pub fn work_bytes(z: Sizes) -> usize
    requires { (z.inputs ≤ max_inputs) × (z.gates ≤ max_gates) }
    ensures { result ≡ memory_bytes z }
{
    64 * (z.inputs + z.gates) + 4096
}
