/// A link of a signature with both parts and their join, as C sees it. Its fields are told in ksi.h.
#[repr(C)]
#[derive(Clone, Copy)]
pub struct KsiStep {
    pub chain: u64,
    pub place: u64,
    pub size: u64,
    pub calendar: u32,
    pub side: u32,
    pub level: u32,
    pub raw: u32,
    pub node: [u8; 32],
    pub join: [u8; 32],
    pub sibling: [u8; 4096],
}
