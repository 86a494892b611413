// Cases in text files: the files, their lines and fields, and hexadecimal digits. For the programs that run vectors.
#![tactic(auto)]

pub mod buffers; // buffers.rt: buffers before and after a call
pub mod files; // files.rt: a file read into a buffer
pub mod fields; // fields.rt: the fields of a line, and numbers in them
pub mod hex; // hex.rt: bytes as hexadecimal digits
