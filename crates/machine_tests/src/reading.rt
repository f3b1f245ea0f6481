// What machines read.
use machine::Machine;
use rows::Wire;

// Whether the first four wires read these numbers.
pub(crate) fn reads<M: Machine>(m: &M, numbers: [u64; 4]) -> bool {
    let [a, b, c, d] = numbers;
    m.read(Wire(0)) == a && m.read(Wire(1)) == b && m.read(Wire(2)) == c && m.read(Wire(3)) == d
}
