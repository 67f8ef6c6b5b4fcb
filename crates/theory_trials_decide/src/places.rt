//! Points of a grid, as whole numbers over one denominator.

use theory_points::{Name, Point};

/// The values of four symbols: tops over one bottom, which is above 0.
#[derive(Clone, Copy, Debug)]
pub struct Place {
    pub tops: [i128; 4],
    pub bottom: i128,
}

/// Halves: 0, 1, -1, 1/2, -1/2, 2, -2.
const SEVEN: [i128; 7] = [0, 2, -2, 1, -1, 4, -4];

/// Halves: 0, 1, -1, 1/2, 2.
const FIVE: [i128; 5] = [0, 2, -2, 1, 4];

/// How many places the grid of two, three or four symbols has.
pub fn grid_size(count: u32) -> u32 {
    match count {
        2 => 49,
        3 => 343,
        _ => 625,
    }
}

/// A place of the grid; the symbols past the last have the value 0.
pub fn grid_place(count: u32, number: u32) -> Place {
    let mut tops = [0; 4];
    let mut rest = number;
    for k in 0..4 {
        if count < 4 {
            tops[k] = SEVEN[(rest % 7) as usize];
            rest /= 7;
        } else {
            tops[k] = FIVE[(rest % 5) as usize];
            rest /= 5;
        }
    }
    Place { tops, bottom: 2 }
}

/// The values that a point gives to four names; None where they don't fit.
pub fn place_of(point: &Point, names: &[Name]) -> Option<Place> {
    let bottom = common_bottom(point, names)?;
    let mut tops = [0; 4];
    for (k, name) in names.iter().enumerate() {
        if k < 4 {
            tops[k] = top_over(point, name, bottom)?;
        }
    }
    Some(Place { tops, bottom })
}

/// The product of the denominators.
fn common_bottom(point: &Point, names: &[Name]) -> Option<i128> {
    let mut product: i128 = 1;
    for name in names {
        product = product.checked_mul(i128::from(point.value(name).den()))?;
    }
    Some(product)
}

/// The numerator of a value over a multiple of its denominator.
fn top_over(point: &Point, name: &Name, bottom: i128) -> Option<i128> {
    let value = point.value(name);
    bottom
        .checked_div(i128::from(value.den()))?
        .checked_mul(i128::from(value.num()))
}
