ghost use Rattle.std.specs.Prelude.{◌≡◌, Some, None};
ghost use Rattle.ksi_tlv.specs.declared.grammar.rule.Over.TheVariants.{Repeated};

/// How many elements of each slot came, 65,535 for more.
pub type Seen = [u16; 8];

/// Which fault one element too many is.
#[derive(Clone, Copy)]
pub enum Over {
    Repeated,
    Links,
    Chains,
    Sibling,
}

/// What the table says of a kind.
#[derive(Clone, Copy)]
pub struct Rule {
    /// The number of its slot, from 0. Elements of one slot are counted together.
    pub slot: usize,
    /// How many may stand.
    pub most: Option<u16>,
    pub over: Over,
}

impl Rule {
    /// A slot that may hold one element.
    pub fn once(slot: usize) -> Self
        ensures { result ≡ record { slot = slot; most = Some 1; over = Repeated } }
    {
        Rule {
            slot,
            most: Some(1),
            over: Over::Repeated,
        }
    }

    /// A slot that may hold any number of elements.
    pub fn any(slot: usize) -> Self
        ensures { result ≡ record { slot = slot; most = None; over = Repeated } }
    {
        Rule {
            slot,
            most: None,
            over: Over::Repeated,
        }
    }
}
