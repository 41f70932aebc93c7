/// What came of forgetting: the old disk, how many records its file has, and how many the new file has.
#[derive(Drop)]
pub struct Forgotten<D> {
    pub disk: D,
    pub records: u64,
    pub left: u64,
}
