// Counts over symbols.
ghost use Rattle.std.specs.Prelude.{◌≡◌, ◌≤◌, length};
ghost use Rattle.codes.specs.Code.{distance, weight};
ghost use Rattle.promises.specs.Trial.{excess};

// The index of the first symbol of q or more.
pub(crate) fn first_excess(q: u8, word: &[u8]) -> Option<usize>
    ensures { result ≡ excess q word.now }
{
    word.iter().position(|symbol| *symbol >= q)
}

// How many symbols of a word are not 0.
pub(crate) fn weight(word: &[u8]) -> usize
    ensures { result ≡ weight (length word.now) word.now }
{
    word.iter().filter(|symbol| **symbol != 0).count()
}

// The number of places where two words of one length differ.
pub(crate) fn distance(v: &[u8], w: &[u8]) -> usize
    requires { length v.now ≡ length w.now }
    ensures count { result ≡ distance (length v.now) v.now w.now }
    ensures few { result ≤ length v.now }
{
    v.iter().zip(w).filter(|(x, y)| x != y).count()
}
