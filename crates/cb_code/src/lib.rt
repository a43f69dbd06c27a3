//! The systematic Reed-Solomon code over GF(256): its coefficients, the parities of data rows,
//! and the test of a code word.
#![tactic(auto)]

mod coeffs;
mod encoding;
mod laws;
mod syndromes;

pub use coeffs::{Coeffs, coefficients};
pub use encoding::{encode, encode_borrowed, encode_into, encode_rows};
pub use laws::coefficient_laws;
pub use syndromes::{
    block_is_zero, block_syndrome, column_is_zero, powers_of_two, syndrome_at, syndromes_zero,
};
