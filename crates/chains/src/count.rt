// How many wires a set holds.
ghost use Rattle.std.specs.Prelude.{◌≡◌, ℕ, ◌/◌, ◌%◌, ◌^◌, ◌==◌, ◌<◌, ◌≤◌, List, count_by};
ghost use Rattle.std.specs.List.{range_with_len};
ghost use Rattle.rows.specs.Steps.{Gate};
ghost use Rattle.cone.specs.Sets.{In};
ghost use Rattle.chains.specs.Chained.{Counts, Source};
ghost use Rattle.chains.specs.Sourced.{SourceSet};

// How many of the wires below n the set holds.
fn count_wires(set: u64, n: u8) -> u8
    requires { n ≤ 64 }
    ensures { result ≡ count_by (λ j. set / 2 ^ j % 2 == 1) (range_with_len 0 n) }
{
    (0..n).filter(|j| (set >> *j) % 2 == 1).count() as u8
}

// How many of n qubits the set holds; of more than 64 the first 64 count.
pub(crate) fn count_sources(set: u64, n: u8) -> u8
    ensures { (gs : List Gate) (q : ℕ) → SourceSet set n gs q → n ≤ 64 → Counts (Source n gs q) n result }
{
    count_wires(set, n.min(64))
}
