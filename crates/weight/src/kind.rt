ghost use Rattle.std.specs.Prelude.{◌≡◌};
ghost use Rattle.weight.specs.Kinds.{Kind, Laws};

/// A kind of weight: a semiring in which zero and one differ.
pub trait Weight: Copy {
    ghost kind: { Kind Self };

    fn zero() -> Self
        ensures { result ≡ kind.zero };

    fn one() -> Self
        ensures { result ≡ kind.one };

    fn plus(self, other: Self) -> Self
        ensures { result ≡ kind.plus self other };

    fn times(self, other: Self) -> Self
        ensures { result ≡ kind.times self other };

    /// Whether the kind states that its product exchanges.
    fn exchanges() -> bool
        ensures { result ≡ kind.exchanges };

    ghost laws: { Laws kind };
}
