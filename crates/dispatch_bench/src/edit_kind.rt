/// The kinds of edits that are timed one to a batch.
#[derive(Clone, Copy, PartialEq)]
pub enum EditKind {
    /// Another body for a definition at classes with none below them.
    LeafRedefine,
    /// Another body for a definition.
    Redefine,
    /// A definition of what has none.
    Define,
    /// A definition goes.
    Undefine,
    /// A link between two classes.
    Link,
    /// The link to the first parent of a class goes.
    Unlink,
    /// A new class, with one or two parents.
    Class,
    /// A class goes.
    Drop,
}

impl EditKind {
    /// The words that are printed.
    pub fn words(self) -> &'static str {
        match self {
            EditKind::LeafRedefine => "redefine at a leaf",
            EditKind::Redefine => "redefine",
            EditKind::Define => "define",
            EditKind::Undefine => "undefine",
            EditKind::Link => "link",
            EditKind::Unlink => "unlink",
            EditKind::Class => "class",
            EditKind::Drop => "drop",
        }
    }

    /// The kind of what undoes edits of this kind, where it is timed too.
    pub fn undone_by(self) -> Option<EditKind> {
        match self {
            EditKind::Undefine => Some(EditKind::Define),
            EditKind::Class => Some(EditKind::Drop),
            _ => None,
        }
    }
}
