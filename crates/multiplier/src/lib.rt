// The signed product of K and L, and its two halves M and N. Knows no machine.
#![tactic(auto)]

ghost use Rattle.std.specs.Prelude.{◌≡◌};
ghost use Rattle.multiplier.specs.Product.{product, m_of, n_of};

// The exact product of two registers' signed values.
#[tactic(auto, unfolding(crate::specs::Product::product), using(crate::proofs::Halves::products))]
pub fn multiply(k: u16, l: u16) -> i32
    ensures { result ≡ product k l }
{
    numbers::sign_extend(k) * numbers::sign_extend(l)
}

// M: the product divided by 32768, rounded down, kept to 16 bits.
#[tactic(auto, unfolding(crate::specs::Product::m_of), using(crate::proofs::Halves::products))]
pub fn m(k: u16, l: u16) -> u16
    ensures { result ≡ m_of k l }
{
    numbers::keep16(multiply(k, l) >> 15)
}

// N: the product's low 15 bits, doubled.
#[tactic(auto, unfolding(crate::specs::Product::n_of), using(crate::proofs::Halves::products))]
pub fn n(k: u16, l: u16) -> u16
    ensures { result ≡ n_of k l }
{
    numbers::keep16(multiply(k, l)) % 32768 * 2
}
