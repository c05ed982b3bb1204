//! Tests of what the program meets outside: files, input and output, the image's file, ELF files and tag files.
#![tactic(auto)]

mod doubles;
#[cfg(test)]
mod elf_files;
#[cfg(test)]
mod host;
#[cfg(test)]
mod images;
