// What becomes of a block.
ghost use Rattle.std.specs.Prelude.{◌≡◌, ◌++◌, map, codes};
ghost use Rattle.schemes.specs.Told.{answered};
ghost use Rattle.mending.specs.Lines.{digit, fate};
ghost use Rattle.mending.specs.Fates.{shown};

use faults::Fault;
use std::fmt;

// What stands in a line between the number and the symbols.
#[derive(Clone, Copy)]
pub(crate) enum Fate {
    Clean,
    Mended { distance: u8 },
    Lost,
    // Its number alone is printed.
    Refused { number: u8 },
}

impl fmt::Display for Fate {
    ghost use Rattle.std.specs.Prelude.{Some};

    ghost output = { λ f. Some (shown f) };

    fn fmt<W: fmt::Write>(&self, f: &mut fmt::Formatter<W>) -> fmt::Result {
        match self {
            Fate::Clean => write!(f, "clean 0 "),
            Fate::Mended { distance } => write!(f, "mended {distance} "),
            Fate::Lost => write!(f, "lost - "),
            Fate::Refused { number } => write!(f, "refused {number}"),
        }
    }
}

// The fate of a block by the answer of correct, and the symbols that the line shows.
pub(crate) fn fate_of<'a>(
    answer: Result<(u8, u16), Fault>,
    block: &'a [u8],
    word: &'a [u8],
) -> (Fate, &'a [u8])
    ensures { codes " " ++ (shown result.0 ++ map digit result.1.now) ≡ fate block.now (answered answer) word.now }
{
    match answer {
        Ok((0, _)) => (Fate::Clean, word),
        Ok((distance, _)) => (Fate::Mended { distance }, word),
        Err(Fault::Lost) => (Fate::Lost, block),
        Err(fault) => (
            Fate::Refused {
                number: fault.number(),
            },
            &[],
        ),
    }
}
