// The kinds that scheme files name, as one kind. Each call asks the variant: a `dyn Kind` could not be handed out, and there is no heap for a box.
ghost use Rattle.std.specs.Prelude.{◌≡◌};
ghost use Rattle.opening.specs.Held.{ring_held};
ghost use Rattle.opening.specs.declared.kinds.FileKind.TheVariants.{Residues, TwoPower};
ghost use Rattle.symbols.specs.Families.{residue_rules, two_power_rules};

use symbols::{Kind, Residues, TwoPower};

#[derive(Clone, Copy)]
pub enum FileKind {
    Residues(Residues),
    TwoPower(TwoPower),
}

impl Kind for FileKind {
    ghost ring = { ring_held };

    ghost rules = { elim [
      | Residues kind ↦ residue_rules kind.b kind.low kind.high
      | TwoPower kind ↦ two_power_rules kind.w kind.low kind.high
    ] };

    fn order(&self) -> u8 {
        match self {
            FileKind::Residues(kind) => kind.order(),
            FileKind::TwoPower(kind) => kind.order(),
        }
    }

    fn sum(&self, a: u8, b: u8) -> u8 {
        match self {
            FileKind::Residues(kind) => kind.sum(a, b),
            FileKind::TwoPower(kind) => kind.sum(a, b),
        }
    }

    fn negative(&self, a: u8) -> u8 {
        match self {
            FileKind::Residues(kind) => kind.negative(a),
            FileKind::TwoPower(kind) => kind.negative(a),
        }
    }

    fn product(&self, a: u8, b: u8) -> u8 {
        match self {
            FileKind::Residues(kind) => kind.product(a, b),
            FileKind::TwoPower(kind) => kind.product(a, b),
        }
    }

    fn add_multiple(&self, factor: u8, row: &[u8], sums: &mut [u8]) {
        match self {
            FileKind::Residues(kind) => kind.add_multiple(factor, row, sums),
            FileKind::TwoPower(kind) => kind.add_multiple(factor, row, sums),
        }
    }
}
