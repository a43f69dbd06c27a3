//! The field GF(256) of the polynomial x^8+x^4+x^3+x^2+1, its laws, sums of rows of bytes, and
//! what a code word is.
#![tactic(auto)]

mod closing;
mod erasures;
mod factors;
mod field;
mod lagrange;
mod lanes;
mod laws;
mod no_memory;
mod products;
mod recovering;
mod row;
mod rows;
mod sums;
mod tables;

pub use closing::with_last_sum;
pub use erasures::{code_laws, corner_laws, polynomial_laws, restoring_laws, split_laws};
pub use factors::Factors;
pub use field::{add, inv, mul, pow};
pub use lagrange::{factor_by, own_inverse};
pub use lanes::{BLOCK, add_blocks, block_at, is_zero_block, put_block};
pub use laws::{field_laws, power_laws, powers_of_two, row_laws, sum_laws};
pub use no_memory::NoMemory;
pub use products::Products;
pub use row::{axpy_row, xor_row};
pub use rows::{Rows, RowsRef};
pub use sums::set_sums_in;
pub use tables::logarithm;
