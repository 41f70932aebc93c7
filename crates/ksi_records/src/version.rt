/// The form of a record.
#[derive(Clone, Copy)]
pub enum Version {
    /// An entry of a delivery names the message alone. The record begins with its first entry.
    One,
    /// An entry of a delivery also has the node and the line that it took. The record begins with the line `ksi-record 2`.
    Two,
}
