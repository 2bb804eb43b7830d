// TRBs and codes as Rust and C have them, as lomvigast_ffi has memory and the rings: apart from it so that the two are proved at the same
// time, and so that what is quick is inlined into its export (trb_ffi_c). A TRB comes in as two numbers; an answer goes into words that the
// caller lends, which are then those of Rust's enum and of C's union (include/lomvigast.h), or stands in registers. So here a refusal is its
// number, 0 for none, a kind is a number, and what a record in registers has not is 0: C has no Result and no enum with data. Two functions that do
// the same of two kinds of ring are two names in C, of its own count of words; a TRB's data is three values side by side, as C's names have them.
// Records are made by functions and no `From`, each with a definition of its own name in specs/.
#![tactic(auto)]

pub mod commands;
pub mod events;
pub mod numbers;
mod packing;
pub mod parts;
pub mod transfers;
