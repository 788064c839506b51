//! What the words of `moo-play` say.

/// The words of `moo-play`, as they were given.
#[derive(Clone, Copy, Debug)]
pub struct Options<'a> {
    /// A checkpoint file, or the word `fixture`.
    pub world: &'a str,
    /// A file, or the word `stdin`.
    pub script: &'a str,
    /// How many workers, 1 where nothing was said.
    pub workers: &'a str,
    /// The file that gets the checkpoint of the world at the end.
    pub out: Option<&'a str>,
}
