//! The bodies of definitions: read, spelled and shown.

pub mod body;
