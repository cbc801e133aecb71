// The number of an answer: a trait of the refusals, a definition, and the one law by which every theorem on a number is proved.
#![tactic(auto)]

ghost use Rattle.std.specs.Prelude.{◌≡◌, ℕ};
ghost use Rattle.numbers.specs.Number.{number_by};

// What has a number that a caller gets back. Each enum of refusals says by `number_of` which case has which, in an impl of its own: a macro
// writes no clause.
pub trait Numbered {
    ghost number_of: { Self → ℕ };

    fn number(self) -> u8
        ensures { result ≡ number_of self };
}

// "0 is done"; a refusal has its own.
impl<T: Drop, E: Numbered> Numbered for Result<T, E> {
    ghost number_of = { number_by E.number_of };

    fn number(self) -> u8 {
        match self {
            Ok(_) => 0,
            Err(e) => e.number(),
        }
    }
}
