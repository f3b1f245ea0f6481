// What the machine below can do.
ghost use Rattle.std.specs.Prelude.{◌≡◌, true, false, ◌||◌, ◌==◌};
ghost use Rattle.rows.specs.declared.kind.Kind.{Kind as GateKind};
ghost use Rattle.rows.specs.Kinds.{code};
ghost use Rattle.plan.specs.Abilities.{known};

use rows::Kind;

/// The number of wires and the kinds of gates of the machine that a plan is laid over.
// An array by the codes, not a set: no call of this layer may allocate, as it is turned away only by the listed refusals.
#[derive(Clone, Copy)]
pub struct Ability {
    width: u8,
    /// Whether a kind is known, at its code.
    kinds: [bool; 12],
}

impl Ability {
    /// So many wires, and every kind of gates or none.
    fn of(width: u8, every: bool) -> Ability
        ensures width { result.width ≡ width }
        ensures kinds { (κ : GateKind) → known result.kinds κ ≡ every }
    {
        Ability {
            width,
            kinds: [every; 12],
        }
    }

    /// So many wires, and no kind of gates.
    pub fn none(width: u8) -> Ability
        ensures width { result.width ≡ width }
        ensures kinds { (κ : GateKind) → known result.kinds κ ≡ false }
    {
        Ability::of(width, false)
    }

    /// So many wires, and every kind of gates.
    pub fn all(width: u8) -> Ability
        ensures width { result.width ≡ width }
        ensures kinds { (κ : GateKind) → known result.kinds κ ≡ true }
    {
        Ability::of(width, true)
    }

    /// One kind more.
    pub fn learn(&mut self, kind: Kind)
        ensures width { self.new.width ≡ self.old.width }
        ensures kinds { (κ : GateKind) → known self.new.kinds κ ≡ (code kind == code κ || known self.old.kinds κ) }
    {
        self.kinds[kind.code() as usize] = true;
    }

    /// Whether gates of the kind are known.
    pub fn knows(&self, kind: Kind) -> bool
        ensures { result ≡ known self.now.kinds kind }
    {
        let code = kind.code() as usize;
        self.kinds[code]
    }

    /// The number of wires.
    pub fn width(&self) -> u8
        ensures { result ≡ self.now.width }
    {
        self.width
    }
}
