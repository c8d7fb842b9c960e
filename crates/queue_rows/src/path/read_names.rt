//! Rows of the file of names: texts, and what is written of what each keeps, as tables. There is nothing here but tests.

mod held;
mod made;
mod read;
mod refused;
