//! The job of a tool for stores.

/// A tool, and the store on which it is used.
///
/// ```
/// let mut words = Vec::new(alloc);
/// for word in "relay store show --store a.db board".split_whitespace() {
///     words.push(String::from_str(alloc, word).ok()?).ok()?;
/// }
/// let Ok(Job::Store(StoreJob { file, tool })) = job_of(alloc, &words, None) else {
///     return None;
/// };
/// assert!(rt; file.as_str() == "a.db");
/// assert!(rt; matches!(tool, StoreTool::Show(room) if room.as_str() == "board"));
/// ```
#[derive(Debug, PartialEq, Eq, Drop)]
pub struct StoreJob {
    /// `--store`: the name of the file that keeps the documents, not empty.
    pub file: String,
    pub tool: StoreTool,
}

/// A tool for a store.
#[derive(Debug, PartialEq, Eq, Drop)]
pub enum StoreTool {
    /// List the rooms.
    List,
    /// Print the document of the room of that name.
    Show(String),
    /// Print all rooms with their documents, as `Import` reads them.
    Export,
    /// Read rooms with their documents into a store that keeps nothing.
    Import,
}
