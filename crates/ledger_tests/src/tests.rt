//! The tests, by what they are about.

mod clashes;
mod crashes;
mod digests;
mod edges;
mod encoded;
mod entries;
mod limits;
mod scratch;
mod texts;
mod written;
