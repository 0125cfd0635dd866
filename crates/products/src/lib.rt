// The signed product, and the product shift.
#![tactic(auto)]

ghost use Rattle.std.specs.Prelude.{◌≡◌, ◌≤◌};
ghost use Rattle.alu.specs.Products.{product_word, long_constant, shifted_product, product_high, product_low};
ghost use Rattle.products.specs.Scaling.{scaled, amount_of};

use words::bits;

// The signed product, as P takes it. Both words are extended by their signs: the low 32 bits are those of the exact product.
#[tactic(auto, using(crate::specs::ProductLaws::product_is, crate::specs::ProductLaws::product_fits))]
pub fn product(x: u16, y: u16) -> u32
    ensures { result ≡ product_word x y }
{
    let a = u64::from(bits::sign_extended(x));
    let b = u64::from(bits::sign_extended(y));
    (a * b % 4294967296) as u32
}

// MPYK's 13-bit constant, from its word: adding 57,344 (E000h) where bit 12 is set fills bits 15 to 13 with the sign.
#[tactic(auto, using(crate::specs::ProductLaws::constant_is))]
pub fn long_constant(k: u16) -> u16
    ensures { result ≡ long_constant k }
{
    let bits = k % 8192;
    bits + bits / 4096 * 57344
}

// The product shifted left by `k` places and right by 6, with its sign: one way of working for every PM. 64 bits are enough: what the shifts lose and fill in lies above the 32 bits that are kept.
#[tactic(auto, using(crate::specs::ProductLaws::scale_law))]
fn scale(p: u32, k: u32) -> u32
    requires { k ≤ 32 }
    ensures { result ≡ scaled k p }
{
    let wide = u64::from(p) + u64::from(p / 2147483648) * 0xFFFF_FFFF_0000_0000;
    (((wide << k) >> 6) % 4294967296) as u32
}

// `k` for each PM: none, left 1, left 4, right 6.
#[tactic(auto, unfolding(crate::specs::Scaling::amount_of))]
fn amount(pm: u8) -> u32
    ensures { result ≡ amount_of pm }
{
    match pm {
        0 => 6,
        1 => 7,
        2 => 10,
        _ => 0,
    }
}

#[tactic(auto, using(crate::specs::ProductLaws::amount_le, crate::specs::ProductLaws::scaled_is))]
pub fn shift_product(p: u32, pm: u8) -> u32
    ensures { result ≡ shifted_product p pm }
{
    scale(p, amount(pm))
}

// What SPH stores.
#[tactic(auto, unfolding(alu::specs::Products::product_high))]
pub fn product_high(p: u32, pm: u8) -> u16
    ensures { result ≡ product_high p pm }
{
    bits::high_half(shift_product(p, pm))
}

// What SPL stores.
#[tactic(auto, unfolding(alu::specs::Products::product_low))]
pub fn product_low(p: u32, pm: u8) -> u16
    ensures { result ≡ product_low p pm }
{
    bits::low_half(shift_product(p, pm))
}
