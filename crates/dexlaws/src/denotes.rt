//! A file denotes at most one collection, and an accepted file one that is well formed and good.
pub mod classes;
pub mod code;
pub mod collections;
pub mod good;
pub mod rows;
