/// Where in a mirror's file the elements so far end.
#[derive(Clone, Copy)]
pub enum MirrorStage {
    /// Before the start.
    Start,
    /// Behind the start or a root.
    Roots,
    /// In a list whose items come.
    Items,
    /// Behind a whole list.
    Lists,
    /// Behind the end.
    End,
}
