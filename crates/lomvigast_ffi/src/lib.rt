// Guest memory and the rings as Rust and C have them; trb_ffi has the rest, and lomvigast_ffi_c exports what is here. A ring's state is words that
// the caller keeps and lends to be changed in place; an answer stands in a register, or in words that the caller lends. So here a refusal is its
// number, 0 for none, a kind is a number, and what a record in registers has not is 0: C has no Result and no enum with data. Two functions that do
// the same of two widths or two rings are two names in C. Words and records are made and read by functions and no `From`: words have no type of
// their own, and each of these functions has a definition of its own name in specs/.
#![tactic(auto)]

pub mod linked;
pub mod memory;
pub mod rings;
