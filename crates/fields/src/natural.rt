ghost use Rattle.std.specs.Prelude.{◌≡◌, ℕ, ◌^◌, ◌<◌, ◌≤◌, MatchOption};

// A type of numbers that a text may write: the numbers below a limit.
pub trait Natural: Copy {
    ghost value: { Self → ℕ };

    ghost limit: { ℕ };

    fn widen(self) -> u64
        ensures value { result ≡ value self }
        ensures below { value self < limit };

    // The number n, or none where that is past the limit.
    fn narrow(n: u64) -> Option<Self>
        ensures { MatchOption result (limit ≤ n) (λ x. value x ≡ n) };
}

impl Natural for u32 {
    ghost value = { λ n. n };

    ghost limit = { 2 ^ 32 };

    fn widen(self) -> u64 {
        u64::from(self)
    }

    fn narrow(n: u64) -> Option<u32> {
        u32::try_from(n).ok()
    }
}

impl Natural for u64 {
    ghost value = { λ n. n };

    ghost limit = { 2 ^ 64 };

    fn widen(self) -> u64 {
        self
    }

    fn narrow(n: u64) -> Option<u64> {
        Some(n)
    }
}
