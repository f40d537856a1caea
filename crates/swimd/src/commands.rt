//! The commands of the program, and what they read and write.

pub(crate) mod given;
pub(crate) mod program_commands;
pub(crate) mod stacks;
pub(crate) mod web;
