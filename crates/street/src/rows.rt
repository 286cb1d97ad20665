// A 4 by 4 matrix of four rows, which takes points, directions and normals, and the ray of a placement: `transform_ray` of scene.rs.
// Every call answers on every f64. Left out: the division by w, which is 1 where the bottom row is 0, 0, 0, 1.
ghost use Rattle.std.specs.Prelude.{◌≡◌, ◌+◌, ◌≤◌, length as list_length};
ghost use Rattle.street.specs.Rows.{row_at, matrix_at, small_row, bottom_row, good_matrix, against, through, column_of, point_by, direction_by, normal_by, length_of, cast, local_ray};

use aabb::{Ray, Vec3};

// No number of a matrix is larger in size.
const TWO_TO_20: f64 = 1048576.0;

// Four numbers: what meets x, y and z, and what meets w.
#[derive(Clone, Copy)]
pub struct Row {
    pub xyz: Vec3,
    pub w: f64,
}

// Its rows have names: in an array a definition would read each by its place, with a row for places beyond the end.
#[derive(Clone, Copy)]
pub struct Matrix {
    pub first: Row,
    pub second: Row,
    pub third: Row,
    pub fourth: Row,
}

impl Row {
    // Four numbers of a lent list from place `at` on; a NaN for each place beyond its end.
    #[tactic(auto, unfolding(crate::specs::Rows::row_at, aabb::specs::Vector::vector_at))]
    fn read(numbers: &[f64], at: usize) -> Row
        requires { at ≤ list_length numbers.now + 12 }
        ensures { result ≡ row_at numbers.now at }
    {
        let xyz = Vec3::read(numbers, at);
        let next = Vec3::read(numbers, at + 3);
        Row { xyz, w: next.x }
    }

    // Whether the four numbers are finite, of magnitude at most 2^20.
    #[tactic(auto, unfolding(crate::specs::Rows::small_row, aabb::specs::Vector::within))]
    fn small(self) -> bool
        ensures { result ≡ small_row self }
    {
        self.xyz.within(TWO_TO_20) && float::magnitude(self.w) <= TWO_TO_20
    }

    // Whether they are 0, 0, 0, 1.
    #[tactic(auto, unfolding(crate::specs::Rows::bottom_row))]
    fn bottom(self) -> bool
        ensures { result ≡ bottom_row self }
    {
        self.xyz.all_equal(0.0) && self.w == 1.0
    }

    // ((a·x + b·y) + c·z) + d·w
    #[tactic(auto, unfolding(crate::specs::Rows::against))]
    fn against(self, p: Vec3, w: f64) -> f64
        ensures { result ≡ against self p w }
    {
        self.xyz.dot(p) + self.w * w
    }
}

impl Matrix {
    // Matrix i of a lent list, sixteen numbers each, by rows; a NaN for each place beyond its end.
    #[tactic(auto, unfolding(crate::specs::Rows::matrix_at), using(crate::proofs::Matrices::matrix_starts))]
    pub fn read(numbers: &[f64], i: usize) -> Matrix
        ensures { result ≡ matrix_at numbers.now i }
    {
        let at = aabb::vector::place(numbers, i, 16);
        let first = Row::read(numbers, at);
        let second = Row::read(numbers, at + 4);
        let third = Row::read(numbers, at + 8);
        let fourth = Row::read(numbers, at + 12);
        Matrix {
            first,
            second,
            third,
            fourth,
        }
    }

    // Whether its numbers are finite, of magnitude at most 2^20, and its bottom row is 0, 0, 0, 1.
    #[tactic(auto, unfolding(crate::specs::Rows::good_matrix))]
    pub fn good(self) -> bool
        ensures { result ≡ good_matrix self }
    {
        self.first.small()
            && self.second.small()
            && self.third.small()
            && self.fourth.small()
            && self.fourth.bottom()
    }

    // Its first three rows against (p, w).
    #[tactic(auto, unfolding(crate::specs::Rows::through))]
    fn through(self, p: Vec3, w: f64) -> Vec3
        ensures { result ≡ through self p w }
    {
        let x = self.first.against(p, w);
        let y = self.second.against(p, w);
        let z = self.third.against(p, w);
        Vec3 { x, y, z }
    }

    // A point, with w = 1.
    #[tactic(auto, unfolding(crate::specs::Rows::point_by))]
    pub fn point(self, p: Vec3) -> Vec3
        ensures { result ≡ point_by self p }
    {
        self.through(p, 1.0)
    }

    // A direction, with w = 0.
    #[tactic(auto, unfolding(crate::specs::Rows::direction_by))]
    pub fn direction(self, d: Vec3) -> Vec3
        ensures { result ≡ direction_by self d }
    {
        self.through(d, 0.0)
    }

    // The column on an axis, as a row: x at 0, y at 1, z at 2 and beyond.
    #[tactic(auto, unfolding(crate::specs::Rows::column_of))]
    fn column(self, axis: usize) -> Row
        ensures { result ≡ column_of self axis }
    {
        let x = self.first.xyz.along(axis);
        let y = self.second.xyz.along(axis);
        let z = self.third.xyz.along(axis);
        let w = self.fourth.xyz.along(axis);
        Row {
            xyz: Vec3 { x, y, z },
            w,
        }
    }

    // A normal of the house, by the columns of its placement's inverse, with w = 0.
    #[tactic(auto, unfolding(crate::specs::Rows::normal_by))]
    pub fn normal(self, n: Vec3) -> Vec3
        ensures { result ≡ normal_by self n }
    {
        let x = self.column(0).against(n, 0.0);
        let y = self.column(1).against(n, 0.0);
        let z = self.column(2).against(n, 0.0);
        Vec3 { x, y, z }
    }

    // The ray in the house's numbers, by the inverse: its direction is divided by its length, and there is none unless that is above 1e-12.
    #[tactic(auto, unfolding(crate::specs::Rows::local_ray))]
    pub fn transform_ray(self, ray: Ray) -> Option<Ray>
        ensures { result ≡ local_ray self ray }
    {
        let origin = self.point(ray.origin);
        let direction = self.direction(ray.direction);
        cast(origin, direction)
    }
}

// The length of a vector: the root of its dot with itself.
#[tactic(auto, unfolding(crate::specs::Rows::length_of))]
pub fn length(a: Vec3) -> f64
    ensures { result ≡ length_of a }
{
    float::root(a.dot(a))
}

#[tactic(auto, unfolding(crate::specs::Rows::cast))]
fn cast(origin: Vec3, along: Vec3) -> Option<Ray>
    ensures { result ≡ cast origin along }
{
    let size = length(along);
    if size > 1e-12 {
        let direction = along.divided(size);
        return Some(Ray { origin, direction });
    }
    None
}
