// What a gate makes of the cells of its own wires.

/// The cell of a gate's one wire after it, and whether the gate flips the sign.
#[derive(Clone, Copy)]
pub struct Single<C> {
    pub cell: C,
    pub flips: bool,
}

/// The cells of a gate's two wires after it, and whether the gate flips the sign.
#[derive(Clone, Copy)]
pub struct Double<C> {
    pub first: C,
    pub second: C,
    pub flips: bool,
}
