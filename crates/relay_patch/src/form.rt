//! The JSON form of patches: written as a text and as a tree, and read from a tree (RFC 6902,
//! sections 3 and 4).

mod kind;
mod reading;
mod tokens;
mod writing;
