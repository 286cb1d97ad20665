// Axis-aligned boxes (rules B1 to B7). Lesser and greater are rule F4's: a NaN gives way, and the running number stays beside an equal one.
ghost use Rattle.std.specs.Prelude.{◌≡◌};
ghost use Rattle.aabb.specs.Bounds.{empty_box, of_three, grown, union, widened, joined, center, extent, area, bounded, is_empty, usable, contains, holds, box_at};

use crate::vector;
use crate::vector::Vec3;

#[derive(Clone, Copy)]
pub struct Aabb {
    pub min: Vec3,
    pub max: Vec3,
}

impl Aabb {
    // The cost figures of the builder's choice of a split, as the Rust names them.
    pub const SAH_TRAVERSAL_COST: f64 = 1.0;

    pub const SAH_INTERSECTION_COST: f64 = 1.5;

    pub const SAH_BINS: u32 = 16;

    pub const MAX_LEAF_PRIMITIVES: usize = 4;

    // The empty box (rule B1), from which a box grows: each min is +inf, each max -inf.
    #[tactic(auto, unfolding(crate::specs::Bounds::empty_box))]
    pub fn empty() -> Self
        ensures { result ≡ empty_box }
    {
        let i = f64::INFINITY;
        Self {
            min: Vec3 { x: i, y: i, z: i },
            max: Vec3 {
                x: -i,
                y: -i,
                z: -i,
            },
        }
    }

    // The box of three points: `from_points` of the Rust, as far as it is needed.
    #[tactic(auto, unfolding(crate::specs::Bounds::of_three))]
    pub fn from_points(a: Vec3, b: Vec3, c: Vec3) -> Aabb
        ensures { result ≡ of_three a b c }
    {
        Aabb::empty().grow(a).grow(b).grow(c)
    }

    // The box, grown to hold the point.
    #[tactic(auto, unfolding(crate::specs::Bounds::grown))]
    pub fn grow(self, point: Vec3) -> Aabb
        ensures { result ≡ grown self point }
    {
        let min = self.min.least(point);
        let max = self.max.greatest(point);
        Aabb { min, max }
    }

    // The least box that holds both.
    #[tactic(auto, unfolding(crate::specs::Bounds::union))]
    pub fn union(self, other: Aabb) -> Aabb
        ensures { result ≡ union self other }
    {
        let min = self.min.least(other.min);
        let max = self.max.greatest(other.max);
        Aabb { min, max }
    }

    // (This pair and `grow` with `union` are twins of two lines: a function that is told which comparison to make would be no plainer.)
    // The box, widened to hold the point, by one comparison a number: as `grow` for every box that has grown from the empty one, which has no NaN; a NaN of
    // `self` is kept.
    #[tactic(auto, unfolding(crate::specs::Bounds::widened))]
    pub fn widened(self, point: Vec3) -> Aabb
        ensures { result ≡ widened self point }
    {
        let min = self.min.lowest(point);
        let max = self.max.highest(point);
        Aabb { min, max }
    }

    // The box, joined with another, likewise: as `union`.
    #[tactic(auto, unfolding(crate::specs::Bounds::joined))]
    pub fn joined(self, other: Aabb) -> Aabb
        ensures { result ≡ joined self other }
    {
        let min = self.min.lowest(other.min);
        let max = self.max.highest(other.max);
        Aabb { min, max }
    }

    // (min + max)·0.5
    #[tactic(auto, unfolding(crate::specs::Bounds::center))]
    pub fn center(self) -> Vec3
        ensures { result ≡ center self }
    {
        self.min.plus(self.max).scaled(0.5)
    }

    // max - min
    #[tactic(auto, unfolding(crate::specs::Bounds::extent))]
    pub fn extent(self) -> Vec3
        ensures { result ≡ extent self }
    {
        self.max.minus(self.min)
    }

    // Twice the sum of the three faces, or 0 where an extent is negative (rule B6).
    #[tactic(auto, unfolding(crate::specs::Bounds::area, crate::specs::Bounds::area_of))]
    pub fn surface_area(self) -> f64
        ensures { result ≡ area self }
    {
        let d = self.extent();
        if d.x < 0.0 || d.y < 0.0 || d.z < 0.0 {
            return 0.0;
        }
        2.0 * ((d.x * d.y + d.y * d.z) + d.z * d.x)
    }

    // Whether no min is above its max and no number is beyond 2^40 in size (rule N4). A NaN fails the first test; after it the lowest
    // min and the highest max tell for all six. (Three tests, the third under that premise: one chain of them would be no plainer.)
    pub fn bounded(self) -> bool
        ensures { result ≡ bounded self }
    {
        if !self.min.at_most(self.max) {
            return false;
        }
        let limit = float::TWO_TO_40;
        if !(-limit <= float::lower(float::lower(self.min.x, self.min.y), self.min.z)) {
            return false;
        }
        float::higher(float::higher(self.max.x, self.max.y), self.max.z) <= limit
    }

    // Whether it is exactly the empty box.
    #[tactic(auto, unfolding(crate::specs::Bounds::is_empty))]
    pub fn is_empty(self) -> bool
        ensures { result ≡ is_empty self }
    {
        self.min.all_equal(f64::INFINITY) && self.max.all_equal(-f64::INFINITY)
    }

    // Whether a walk can use it: bounded, or exactly the empty box.
    #[tactic(auto, unfolding(crate::specs::Bounds::usable))]
    pub fn usable(self) -> bool
        ensures { result ≡ usable self }
    {
        self.bounded() || self.is_empty()
    }

    // Whether it numerically contains the other box (rule B7).
    #[tactic(auto, unfolding(crate::specs::Bounds::contains))]
    pub fn contains(self, other: Aabb) -> bool
        ensures { result ≡ contains self other }
    {
        self.min.at_most(other.min) && other.max.at_most(self.max)
    }

    // Whether it numerically holds the point (rule B7).
    #[tactic(auto, unfolding(crate::specs::Bounds::holds))]
    pub fn holds(self, point: Vec3) -> bool
        ensures { result ≡ holds self point }
    {
        self.min.at_most(point) && point.at_most(self.max)
    }

    // Box i of a lent slice, six numbers each: min x, y, z, max x, y, z; a NaN for each place beyond its end. One test does for a box that is all there.
    pub fn read(numbers: &[f64], i: usize) -> Aabb
        ensures { result ≡ box_at numbers.now i }
    {
        if i < numbers.len() / 6 {
            let at = i * 6;
            let min = Vec3 {
                x: numbers[at],
                y: numbers[at + 1],
                z: numbers[at + 2],
            };
            let top = at + 3;
            let max = Vec3 {
                x: numbers[top],
                y: numbers[top + 1],
                z: numbers[top + 2],
            };
            return Aabb { min, max };
        }
        past_end(numbers, i)
    }
}

// Box i where not all of its numbers need be there.
fn past_end(numbers: &[f64], i: usize) -> Aabb
    ensures { result ≡ box_at numbers.now i }
{
    let at = vector::place(numbers, i, 6);
    let min = Vec3::read(numbers, at);
    let max = Vec3::read(numbers, at + 3);
    Aabb { min, max }
}
