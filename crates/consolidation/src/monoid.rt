// What can be joined in the order of time.
ghost use Rattle.std.specs.Prelude.{◌≡◌};
ghost use Rattle.consolidation.specs.Laws.{Lawful};

pub trait Monoid {
    // What stands for no time at all.
    ghost empty: { Self };

    // An earlier value and a later one.
    ghost joined: { Self → Self → Self };

    fn empty() -> Self
        ensures { result ≡ empty };

    fn join(self, later: Self) -> Self
        ensures { result ≡ joined self later };

    // Joining is associative, and `empty` is its unit on both sides.
    ghost lawful: { Lawful empty joined };
}
