//! What a formula compares.

/// A scalar of a topic, a state variable of a plant, or the mode of a module, by their places.
#[derive(Clone, Copy)]
pub enum Quantity {
    Scalar(u32),
    State { plant: u32, var: u32 },
    Mode(u32),
}

/// How it is compared.
#[derive(Clone, Copy)]
pub enum Comparison {
    Less,
    LessEqual,
    Greater,
    GreaterEqual,
    Equal,
    NotEqual,
}

/// How two quantities are taken together.
#[derive(Clone, Copy)]
pub enum Pairing {
    Sum,
    Difference,
}
