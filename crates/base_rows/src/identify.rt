//! What the body of IDENTIFY is read as and what it is answered. The plain program of the definitions answers each as well.

mod held;
mod read;
mod refused;
mod shapes;
