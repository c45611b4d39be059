/// Which language a source is written in.
#[derive(Clone, Copy, Debug, PartialEq, Eq)]
pub enum Dialect {
    /// The language of the Rholang tutorial, in this project's profile.
    Tutorial,
}
