//! The tests, a module for each kind, and the owner of the books that they walk in.
mod books;
mod broadcasts;
mod counted;
mod refused;
