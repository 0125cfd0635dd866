// What words, sums, shifts and products are, in specs/ alone: the functions stand above, each kind in a crate of its own. Here are only the types of their results.
#![tactic(auto)]

// What a sum or a difference leaves in ACC, OV and C.
#[derive(Clone, Copy, Debug, PartialEq, Eq)]
pub struct Sum {
    pub acc: u32,
    pub ov: u8,
    pub c: u8,
}

// What SFL and SFR leave in ACC and C.
#[derive(Clone, Copy, Debug, PartialEq, Eq)]
pub struct Shifted {
    pub acc: u32,
    pub c: u8,
}
