// The exports of lomvigast_ffi for C and Rust, as a static library. A crate of Rattle is a library or a static library and not both, and
// programs in Rattle use lomvigast_ffi: so each function stands there, and here is a call of it, under its name and with its clauses.
#![tactic(auto)]

pub mod linked;
pub mod memory;
pub mod rings;
