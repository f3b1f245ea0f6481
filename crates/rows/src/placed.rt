// A gate at its places, whatever these are.
ghost use Rattle.std.specs.Prelude.{◌≡◌, Decides, Some};
ghost use Rattle.std.specs.Option.{option_map};
ghost use Rattle.rows.specs.Kinds.{k_suits};
ghost use Rattle.rows.specs.Steps.{has, kind_of, pair_below, placed, shares, formed, well_formed};

use crate::kind::Kind;
use crate::place::Place;

/// A gate at one place or at two: its kind, its k, and where it stands.
#[derive(Clone, Copy, Debug, PartialEq, Eq)]
pub enum Placed<P> {
    One(Kind, u8, P),
    Two(Kind, u8, P, P),
}

/// Whether k is 1 to 31 for crk, and 0 for every other kind.
fn suits(kind: Kind, k: u8) -> bool
    ensures { result ≡ k_suits kind k }
{
    if kind == Kind::Crk {
        0 < k && k < 32
    } else {
        k == 0
    }
}

/// Whether these are two different places below n.
pub fn two_below<P: Place>(n: u8, a: P, b: P) -> bool
    ensures { result ≡ pair_below n (P.number a) (P.number b) }
{
    a.number() < n && b.number() < n && a.number() != b.number()
}

/// Whether a row with these parts is good, for places below n.
fn is_good<P: Place>(n: u8, kind: Kind, a: P, b: P, k: u8) -> bool
    ensures { result ≡ well_formed n kind (P.number a) (P.number b) k }
{
    if !suits(kind, k) {
        return false;
    }
    if kind.is_double() {
        two_below(n, a, b)
    } else {
        b.number() == 0 && a.number() < n
    }
}

impl<P: Place> Placed<P> {
    /// The gate that a row with these parts writes, for places below n, if the row is good there.
    pub(crate) fn of_row(n: u8, kind: Kind, first: P, second: P, k: u8) -> Option<Placed<P>>
        ensures { option_map (placed P.number) result ≡ formed n (Some kind) (P.number first) (P.number second) k }
    {
        if !is_good(n, kind, first, second, k) {
            return None;
        }
        if kind.is_double() {
            Some(Placed::Two(kind, k, first, second))
        } else {
            Some(Placed::One(kind, k, first))
        }
    }

    /// The kind of the gate.
    pub fn kind(self) -> Kind
        ensures { result ≡ kind_of (placed P.number self) }
    {
        match self {
            Placed::One(kind, _, _) | Placed::Two(kind, _, _, _) => kind,
        }
    }

    /// Whether the gate stands at the place.
    // By number: clauses speak of numbers, and of `==` between places of an unknown type nothing is known.
    pub fn takes(self, place: P) -> bool
        ensures { result ≡ has (placed P.number self) (P.number place) }
    {
        match self {
            Placed::One(_, _, a) => a.number() == place.number(),
            Placed::Two(_, _, a, b) => {
                a.number() == place.number() || b.number() == place.number()
            }
        }
    }

    /// Whether the gates have a place in common.
    pub fn shares(self, other: Placed<P>) -> bool
        ensures { result ≡ shares (placed P.number self) (placed P.number other) }
    {
        match other {
            Placed::One(_, _, a) => self.takes(a),
            Placed::Two(_, _, a, b) => self.takes(a) || self.takes(b),
        }
    }

    /// Whether the gates are of one kind, with one k, at the same places, first for first.
    // Not by the derived ==: that two gates differ where it says no did not close, as nothing known splits a generic enum there.
    pub fn is(self, other: Placed<P>) -> bool
        ensures { Decides result (placed P.number self ≡ placed P.number other) }
    {
        match (self, other) {
            (Placed::One(kind, k, a), Placed::One(kind2, k2, a2)) => {
                kind == kind2 && k == k2 && a.number() == a2.number()
            }
            (Placed::Two(kind, k, a, b), Placed::Two(kind2, k2, a2, b2)) => {
                kind == kind2 && k == k2 && a.number() == a2.number() && b.number() == b2.number()
            }
            _ => false,
        }
    }
}
