ghost use Rattle.std.specs.Prelude.{◌≡◌};

/// How two parts of a tree become one.
pub trait Joins<N> {
    /// The part that both parts make.
    ghost joined: { N → N → N };

    /// The part that both parts make.
    fn join(left: &N, right: &N) -> N
        ensures { result ≡ joined left.now right.now };
}
