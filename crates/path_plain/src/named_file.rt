use nsq_base::Body;

/// A file of a folder: its name and what it contains.
#[derive(Drop)]
pub struct NamedFile {
    /// The file's name.
    pub name: Body,
    /// Its bytes.
    pub bytes: Body,
}
