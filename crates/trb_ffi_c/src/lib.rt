// The exports of trb_ffi for C and Rust, as a static library: as lomvigast_ffi_c has those of lomvigast_ffi, and for the same reason.
#![tactic(auto)]

pub mod commands;
pub mod events;
pub mod numbers;
pub mod parts;
pub mod transfers;
