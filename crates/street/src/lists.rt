// What a caller lends for a walk through a street. In a clause it is its record of lists (specs/Walking.antt).
ghost use Rattle.street.specs.Walking.{Street as Placed, street_of};

use std::marker::Model;
use tree::Lent;

// Sixteen numbers a placement, house to world, and as many for the inverses; and the house that is placed.
#[derive(Drop)]
pub struct Street<'a> {
    pub matrices: &'a [f64],
    pub inverses: &'a [f64],
    pub house: Lent<'a>,
}

impl<'a> Model for Street<'a> {
    ghost Value = { Placed };

    ghost view = { λ s. street_of s.matrices.now s.inverses.now s.house };
}
