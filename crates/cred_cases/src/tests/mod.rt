//! What no script asks, a module for each crate whose calls it makes.
mod capdata;
mod caps;
mod captext;
mod filecap;
mod hold;
mod ids;
mod io;
mod kinds;
mod layout;
mod parts;
mod procs;
mod record;
mod slots;
mod turns;
mod works;
