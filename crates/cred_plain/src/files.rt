//! The open files.
ghost use Rattle.std.specs.Prelude.{◌≡◌, ◌==◌, find, position};
ghost use Rattle.std.specs.Option.{option_map};

use std::marker::Model;

/// An open file has a descriptor, the number of the credential that it was opened by, and its place
/// among the script's files.
#[derive(Drop)]
pub struct OpenFile {
    pub fd: u32,
    pub opener: u64,
    pub file: u32,
}

impl Model for OpenFile {
    ghost use Rattle.cred_model.specs.State.{OpenFile};

    ghost Value = { OpenFile };

    ghost view = { λ f. record { fd = f.fd; opener = f.opener; file = f.file } };
}

/// The open file of a descriptor.
pub fn open_of(files: &[OpenFile], fd: u32) -> Option<&OpenFile>
    ensures { option_map (λ f. f.now) result ≡ find (λ f. f.fd == fd) files.now }
{
    files.iter().find(|file| file.fd == fd)
}

/// Where the open file of a descriptor stands.
pub fn open_place(files: &[OpenFile], fd: u32) -> Option<usize>
    ensures { result ≡ position (λ f. f.fd == fd) files.now }
{
    files.iter().position(|file| file.fd == fd)
}
