// Choices with numbers (added): an order and an answer name each case by one.
ghost use Rattle.std.specs.Prelude.{◌≡◌, ℕ};

pub trait Numbered: Copy {
    ghost number_of: { Self → ℕ };

    ghost case_of: { ℕ → Self };

    // The number by which an order names it.
    fn number(self) -> u32
        ensures { result ≡ number_of self };

    // Inverse of `number`. Any other number gives the last case.
    fn of_number(n: u32) -> Self
        ensures { result ≡ case_of n };

    // A case's number names that case.
    ghost back: { (c : Self) → case_of (number_of c) ≡ c };
}
