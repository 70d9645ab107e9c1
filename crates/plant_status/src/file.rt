/// A file that the program reads. Collectors and readers are numbered from 0.
#[derive(Clone, Copy, Debug, PartialEq, Eq)]
pub enum FileId {
    /// Standard input.
    Input,
    Base,
    Plan,
    Calendar,
    Collector(u32),
    Reader(u32),
}
