ghost use Rattle.std.specs.Prelude.{◌≡◌};

use std::marker::Model;

/// What is sent, in order. A contract sees the list.
#[derive(Drop)]
pub struct Sends<S> {
    sends: Vec<S>,
}

impl<S> Model for Sends<S> {
    ghost use Rattle.std.specs.Prelude.{List};

    ghost Value = { List S };

    ghost view = { λ sends. sends.sends.items };
}

impl<S> Sends<S> {
    /// These sends, which are not copied.
    pub fn from_vec(sends: Vec<S>) -> Self
        ensures { result ≡ sends.items }
    {
        Sends { sends }
    }

    /// The sends in order.
    pub fn as_slice(&self) -> &[S]
        ensures { result.now ≡ self.now }
    {
        self.sends.as_slice()
    }

    /// The sends in a `Vec`, which are not copied.
    pub fn into_vec(self) -> Vec<S>
        ensures { result.items ≡ self }
    {
        let Sends { sends } = self;
        sends
    }
}
