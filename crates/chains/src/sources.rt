// The qubits that a result can depend on.
use cone::Cone;

mod tell;

/// For each qubit of a circuit, the qubits that its result can depend on.
#[derive(Clone, Copy)]
pub struct Sources {
    cone: Cone,
}
