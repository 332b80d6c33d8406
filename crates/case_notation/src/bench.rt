//! The benches: fixed modules, into whose last function the body of a case is put; and the words for their expressions.

ghost use Rattle.std.specs.Prelude.{◌≡◌};
ghost use Rattle.case_notation.specs.Bench.{bench_of};

/// A bench.
#[derive(Clone, Copy, PartialEq, Eq, Debug)]
pub enum Bench {
    /// Types bool, u32 and i32; one function without arguments or result; expressions 0 `t` a bool literal, 1 `u` a u32
    /// literal, 2 `i` an i32 literal, 3 `e1` a Unary of `t`, 4 `v` a local of u32, 5 `x1` a Load of `v`.
    P,
    /// `P` with a function `f` before it, which returns a u32 literal, and 6 `r1`, a result of `f`.
    C,
    /// `P` with 6 `e2`, a Unary of `x1`.
    D,
}

impl Bench {
    /// The bench that a word names.
    pub(crate) fn named(word: &[u8]) -> Option<Bench>
        ensures { result ≡ bench_of word.now }
    {
        if word == b"P".as_slice() {
            Some(Bench::P)
        } else if word == b"C".as_slice() {
            Some(Bench::C)
        } else if word == b"D".as_slice() {
            Some(Bench::D)
        } else {
            None
        }
    }
}
