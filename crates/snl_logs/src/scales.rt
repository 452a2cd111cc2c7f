//! What the numbers of a channel are multiplied by.

/// What the numbers of a channel are multiplied by: a power of ten, and one number by another.
#[derive(Clone, Copy, Debug, PartialEq, Eq)]
pub struct Scale {
    /// The exponent of the power of ten.
    pub power: i64,
    /// The number that is multiplied by.
    pub top: u64,
    /// The number that is divided by.
    pub bottom: u64,
}

/// The exponent of a power of ten.
fn exponent_of(number: u64) -> Option<i64> {
    let mut power = 1u64;
    for exponent in 0..19i64 {
        if power == number {
            return Some(exponent);
        }
        power = power.saturating_mul(10);
    }
    None
}

impl Scale {
    /// A power of ten.
    pub fn of_power(power: i64) -> Scale {
        Scale {
            power,
            top: 1,
            bottom: 1,
        }
    }

    /// One number by another.
    pub fn of_ratio(top: u64, bottom: u64) -> Scale {
        match (exponent_of(top), exponent_of(bottom)) {
            (Some(up), Some(down)) => Scale::of_power(up.saturating_sub(down)),
            _ => Scale {
                power: 0,
                top,
                bottom,
            },
        }
    }

    /// Whether it is a power of ten.
    pub fn is_power(&self) -> bool {
        self.top == 1 && self.bottom == 1
    }
}
