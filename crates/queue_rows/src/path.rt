//! Rows of a data path: texts of the file of names as definitions, plain program and reader have them, what openings of a folder find, and
//! which files are set aside.

mod findings;
mod names;
mod read_names;
mod sweep;
