ghost use Rattle.std.specs.Prelude.{◌≡◌, ◌∷◌, ℕ, List, length, ◌+◌, ◌++◌, ◌<◌, ◌≤◌, ◌↔◌, ◌/◌, ◌%◌, ◌==◌, IfOk, IfErr, IsOk, IsOkAnd};
ghost use Rattle.ksi_tlv.specs.Spelling.{Tlv, Spells, IsFront};
ghost use Rattle.ksi_tlv.specs.Front.{size_at, header_at, element_at};
ghost use Rattle.ksi_tlv.specs.Views.{view, view_front, view_header, view_cut};

/// One element, with its body lent from the bytes it was read from.
#[derive(Clone, Copy)]
pub struct Element<'a> {
    /// At most 0x1fff.
    pub kind: u16,
    /// A reader that does not know the kind may pass over the element.
    pub non_critical: bool,
    /// A reader that passes over the element passes it on.
    pub forward: bool,
    pub body: &'a [u8],
}

/// Why there is no element.
#[derive(Clone, Copy, Debug, PartialEq, Eq)]
pub enum TlvFault {
    /// It would take this many bytes, and this many exist: `Short(need, have)`.
    Short(usize, usize),
}

/// The element at the beginning of bytes, and how many of them it takes.
pub fn read_one(bytes: &[u8]) -> Result<(Element<'_>, usize), TlvFault>
    // The bytes that it takes spell the element.
    ensures found { IfOk result (λ found. IsFront bytes.now (view found.0) found.1) }
    // Whatever element is spelled at the beginning is read, whatever follows.
    ensures only { (e : Tlv) (text rest : List ℕ) → Spells e text → bytes.now ≡ text ++ rest →
        IsOkAnd result (λ found. (view found.0 ≡ e) × (found.1 ≡ length text)) }
    ensures ok { IsOk result ↔ (size_at bytes.now ≤ length bytes.now) }
    ensures short { IfErr result (λ fault. fault ≡ TlvFault.Short (size_at bytes.now) (length bytes.now)) }
    ensures exact { view_front result ≡ element_at bytes.now }
{
    front(bytes)
}

const LONG: u8 = 0x80;

const NON_CRITICAL: u8 = 0x40;

const FORWARD: u8 = 0x20;

/// What stands before a body.
#[derive(Clone, Copy)]
struct Header {
    first: u8,
    kind: u16,
    size: usize,
    count: usize,
}

/// The element at the beginning, and how many bytes it takes.
#[tactic(auto, unfolding(crate::specs::Front::element_at))]
fn front(bytes: &[u8]) -> Result<(Element<'_>, usize), TlvFault>
    ensures exact { view_front result ≡ element_at bytes.now }
    ensures have { IfErr result (λ fault. (view_cut 0 fault).have ≡ length bytes.now) }
{
    let have = bytes.len();
    let header = match read_header(bytes) {
        Ok(header) => header,
        Err(need) => return Err(TlvFault::Short(need, have)),
    };
    let need = header.size + header.count;
    if have < need {
        return Err(TlvFault::Short(need, have));
    }
    let element = Element {
        kind: header.kind,
        non_critical: is_set(header.first, NON_CRITICAL),
        forward: is_set(header.first, FORWARD),
        body: &bytes[header.size..need],
    };
    Ok((element, need))
}

/// The header at the beginning, or how many bytes it takes where it is cut off.
#[tactic(auto, unfolding(crate::specs::Front::header_at))]
fn read_header(bytes: &[u8]) -> Result<Header, usize>
    ensures exact { view_header result ≡ header_at bytes.now }
    ensures small { IfOk result (λ h. h.size + h.count < 65540) }
{
    match bytes {
        [first, count, ..] if *first < LONG => Ok(Header {
            first: *first,
            kind: u16::from(*first % 0x20),
            size: 2,
            count: usize::from(*count),
        }),
        [first, low, high_count, low_count, ..] if *first >= LONG => Ok(Header {
            first: *first,
            kind: 0x100 * u16::from(*first % 0x20) + u16::from(*low),
            size: 4,
            count: 0x100 * usize::from(*high_count) + usize::from(*low_count),
        }),
        [first, ..] if *first >= LONG => Err(4),
        _ => Err(2),
    }
}

fn is_set(first: u8, bit: u8) -> bool
    ensures bit6 { bit ≡ 64 → result ≡ (first / 64 % 2 == 1) }
    ensures bit5 { bit ≡ 32 → result ≡ (first / 32 % 2 == 1) }
{
    first & bit != 0
}
