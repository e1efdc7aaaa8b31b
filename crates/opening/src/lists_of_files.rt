// The lists that scheme files name, as one list. Each call asks the variant: a `dyn Permutations` could not be handed out, and there is no heap for a box.
ghost use Rattle.std.specs.Prelude.{◌≡◌};
ghost use Rattle.opening.specs.Held.{meaning_held, bounds_held};

use lists::{Multiplier, Permutations, Shifts, Table, Targets};

#[derive(Drop)]
pub enum FileList<'a> {
    Table(Table<'a>),
    Shifts(Shifts),
    Multiplier(Multiplier<Shifts>),
}

impl<'a> Permutations for FileList<'a> {
    ghost meaning = { meaning_held };

    ghost bounds = { bounds_held };

    fn length(&self) -> u8 {
        match self {
            FileList::Table(list) => list.length(),
            FileList::Shifts(list) => list.length(),
            FileList::Multiplier(list) => list.length(),
        }
    }

    fn count(&self) -> u16 {
        match self {
            FileList::Table(list) => list.count(),
            FileList::Shifts(list) => list.count(),
            FileList::Multiplier(list) => list.count(),
        }
    }

    fn target(&self, i: u16, p: u8) -> Option<u8> {
        match self {
            FileList::Table(list) => list.target(i, p),
            FileList::Shifts(list) => list.target(i, p),
            FileList::Multiplier(list) => list.target(i, p),
        }
    }

    fn targets(&self, i: u16) -> Targets {
        match self {
            FileList::Table(list) => list.targets(i),
            FileList::Shifts(list) => list.targets(i),
            FileList::Multiplier(list) => list.targets(i),
        }
    }
}
