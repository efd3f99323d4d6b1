//! The events of files: a file is opened and closed, is changed, and is asked how it stands.
mod calls;
mod files;
