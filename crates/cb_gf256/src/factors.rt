//! A table of factors, each kept as its products with the halves of a byte.
ghost use Rattle.std.specs.Prelude.{◌≡◌, ℕ, ◌^◌, ◌<◌, ◌≤◌, length, slice_index, IsTrue};
ghost use Rattle.cb_gf256.specs.Sum.{sum_over};
ghost use Rattle.cb_gf256.specs.Rows.{row_at, byte_at, HaveLength};
ghost use Rattle.cb_gf256.specs.Corner.{corner, HasCorner};
ghost use Rattle.cb_gf256.specs.Closed.{IsClosed};

use crate::products::Products;
use std::marker::Model;

/// Up to four rows of up to sixteen factors each, 2 KB in place.
#[derive(Drop)]
pub struct Factors {
    products: [[Products; 16]; 4],
    width: u32,
    height: u32,
    // Found out once, where the table is made.
    closed: bool,
}

impl Model for Factors {
    ghost use Rattle.std.specs.Prelude.{ℕ, List, IsTrue};
    ghost use Rattle.cb_gf256.specs.Corner.{corner, HasCorner};
    ghost use Rattle.cb_gf256.specs.Closed.{IsClosed};

    ghost Value = { List (List ℕ) };

    ghost view = { λ f. corner f.width f.height f.products };

    ghost invariant = { λ f. HasCorner f.width f.height f.products
        × (IsTrue f.closed → IsClosed (corner f.width f.height f.products)) };
}

impl Factors {
    /// The first `width` factors of the first `height` rows of this table.
    pub fn of_table(table: &[[u8; 16]; 4], width: u32, height: u32) -> Factors
        requires places { width ≤ 16 }
        requires rows { height ≤ 4 }
        requires sized { HaveLength 16 table.now }
        ensures { result ≡ corner width height table.now }
    {
        let mut products = [[Products::of(0); 16]; 4];
        for j in 0..height as usize {
            set_products(&mut products[j], &table[j], width as usize);
        }
        let closed = are_closed(&products, width, height);
        Factors {
            products,
            width,
            height,
            closed,
        }
    }

    /// How many rows there are.
    pub fn height(&self) -> u32
        ensures count { result ≡ length self.now }
        ensures most { result ≤ 4 }
    {
        self.height
    }

    /// Factor `i` of row `j`.
    pub fn at(&self, j: u32, i: u32) -> u8
        requires row { j < length self.now }
        requires place { i < length (row_at self.now j) }
        ensures { result ≡ byte_at self.now j i }
    {
        self.product(j as usize, i as usize).factor()
    }

    /// Whether the table is closed: there are rows, and their factors add up to 1 at each place.
    #[inline(always)]
    pub(crate) fn is_closed(&self) -> bool
        ensures { IsTrue result → IsClosed self.now }
    {
        self.closed
    }

    /// Factor `i` of row `j` with its products.
    #[inline(always)]
    pub(crate) fn product(&self, j: usize, i: usize) -> &Products
        requires row { j < length self.now }
        requires place { i < length (row_at self.now j) }
        requires few { (j < 2 ^ 32) × (i < 2 ^ 32) }
        ensures { result.now ≡ byte_at self.now j i }
    {
        &self.products[j][i]
    }
}

/// Sets the first `width` factors of a row.
fn set_products(products: &mut [Products; 16], row: &[u8; 16], width: usize)
    requires { width ≤ 16 }
    ensures count { length products.new ≡ 16 }
    ensures factors { (i : ℕ) → i < width
        → slice_index products.new i ≡ slice_index row.now i }
{
    for i in 0..width {
        products[i] = Products::of(row[i]);
    }
}

/// Whether the first `width` factors of the first `height` rows are a closed table.
fn are_closed(products: &[[Products; 16]; 4], width: u32, height: u32) -> bool
    requires { HasCorner width height products.now }
    ensures { IsTrue result → IsClosed (corner width height products.now) }
{
    if height == 0 {
        return false;
    }
    for i in 0..width as usize {
        if sum_of_factors(products, height as usize, i) != 1 {
            return false;
        }
    }
    true
}

/// The sum of the factors of the first `height` rows at a place.
fn sum_of_factors(products: &[[Products; 16]; 4], height: usize, i: usize) -> u8
    requires height { (height ≤ 4) × (length products.now ≡ 4) }
    requires place { (i < 16) × HaveLength 16 products.now }
    ensures { result ≡ sum_over height (λ j. byte_at products.now j i) }
{
    let mut sum = 0;
    for j in 0..height {
        sum ^= products[j][i].factor();
    }
    sum
}
