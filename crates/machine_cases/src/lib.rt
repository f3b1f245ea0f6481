//! Worked cases of the machines: established from the rules, and run.

#![tactic(auto)]

ghost use Rattle.std.specs.Prelude.{◌≡◌, ◌<◌, ◌≤◌, true, [], ◌∷◌};
ghost use Rattle.machine_cases.specs.Cases.{MachineCases, readings};

use cone::Cone;
use depth::Depth;
use machine::Machine;
use pauli::Pauli;
use rows::{Kind, Wire};
use std::array;

/// What a Pauli machine reads, wire by wire, and whether its sign is minus.
#[derive(Clone, Copy)]
pub struct Product {
    pub letters: [u64; 2],
    pub minus: bool,
}

/// What the machines read after the worked cases.
#[derive(Clone, Copy)]
pub struct Readings {
    pub y_under_s: Product,
    pub x_y_under_cz: Product,
    pub three_cones: [u64; 3],
    pub two_depths: [u64; 2],
}

/// What the first N wires of a machine read.
fn read_wires<M: Machine, const N: usize>(machine: &M) -> [u64; N]
    requires { N ≤ 64 }
    ensures { result ≡ readings M.Machine.acts N (M.Machine.means machine.now) }
{
    array::from_fn(
        |i| -> u64
            requires { i < 64 }
            ensures { result ≡ M.Machine.acts.reads (M.Machine.means machine.entry.now) i }
        { machine.read(Wire(i as u8)) },
    )
}

/// Y on wire 0 under s is -X.
fn y_under_s() -> Product
    ensures { result ≡ record { letters = 1 ∷ 0 ∷ []; minus = true } }
{
    let mut p = Pauli::new(2, &[3]);
    p.gate(Kind::S, Wire(0), Wire(0), 0);
    Product {
        letters: read_wires(&p),
        minus: p.is_minus(),
    }
}

/// X on wire 0 and Y on wire 1 under cz are -(Y, X).
fn x_y_under_cz() -> Product
    ensures { result ≡ record { letters = 3 ∷ 1 ∷ []; minus = true } }
{
    let mut p = Pauli::new(2, &[1, 3]);
    p.gate(Kind::Cz, Wire(0), Wire(1), 0);
    Product {
        letters: read_wires(&p),
        minus: p.is_minus(),
    }
}

/// {0}, {1}, {2} under cnot 0,1 and cnot 1,2.
fn three_cones() -> [u64; 3]
    ensures { result ≡ 3 ∷ 7 ∷ 7 ∷ [] }
{
    let mut c = Cone::fresh(3);
    c.gate(Kind::Cnot, Wire(0), Wire(1), 0);
    c.gate(Kind::Cnot, Wire(1), Wire(2), 0);
    read_wires(&c)
}

/// 0, 0 under h 0 and cnot 0,1.
fn two_depths() -> [u64; 2]
    ensures { result ≡ 2 ∷ 2 ∷ [] }
{
    let mut d = Depth::fresh(2);
    d.gate(Kind::H, Wire(0), Wire(0), 0);
    d.gate(Kind::Cnot, Wire(0), Wire(1), 0);
    read_wires(&d)
}

/// The worked cases, run; the statement that its contract names says them of the rules alone.
pub fn work_cases() -> Readings
    ensures rules { MachineCases }
    ensures run { result ≡ record {
      y_under_s = record { letters = 1 ∷ 0 ∷ []; minus = true };
      x_y_under_cz = record { letters = 3 ∷ 1 ∷ []; minus = true };
      three_cones = 3 ∷ 7 ∷ 7 ∷ [];
      two_depths = 2 ∷ 2 ∷ [];
    } }
{
    let y_under_s = y_under_s();
    let x_y_under_cz = x_y_under_cz();
    let three_cones = three_cones();
    let two_depths = two_depths();
    Readings {
        y_under_s,
        x_y_under_cz,
        three_cones,
        two_depths,
    }
}
