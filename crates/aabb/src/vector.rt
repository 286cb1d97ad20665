// Vec3 and Ray, which stand for optics_core's (rules V1 to V5). The operators and `[axis]` of the Rust are named calls, by value.
ghost use Rattle.std.specs.Prelude.{◌≡◌, ◌*◌, min, length};
ghost use Rattle.aabb.specs.Vector.{plus, minus, negated, scaled, divided, dot, cross, least, greatest, lowest, highest, along, within, all_within, all_at_most, all_equal, vector_at, point_at, ray_at, admitted_ray, number_at};

#[derive(Clone, Copy)]
pub struct Vec3 {
    pub x: f64,
    pub y: f64,
    pub z: f64,
}

impl Vec3 {
    // f of each component.
    fn each<F: Fn(f64) -> f64>(self, f: F) -> Vec3
        requires { F.IsAlwaysCallable f }
        ensures { F.post f self.x result.x × F.post f self.y result.y × F.post f self.z result.z }
    {
        Vec3 {
            x: f(self.x),
            y: f(self.y),
            z: f(self.z),
        }
    }

    // f of each component and the other's.
    fn pairwise<F: Fn(f64, f64) -> f64>(self, other: Vec3, f: F) -> Vec3
        requires { F.IsAlwaysCallable f }
        ensures { F.post f self.x other.x result.x × F.post f self.y other.y result.y × F.post f self.z other.z result.z }
    {
        Vec3 {
            x: f(self.x, other.x),
            y: f(self.y, other.y),
            z: f(self.z, other.z),
        }
    }

    // The sum, by component.
    #[tactic(auto, unfolding(crate::specs::Vector::plus))]
    pub fn plus(self, other: Vec3) -> Vec3
        ensures { result ≡ plus self other }
    {
        self.pairwise(other, |a, b| a + b)
    }

    // The difference, by component.
    #[tactic(auto, unfolding(crate::specs::Vector::minus))]
    pub fn minus(self, other: Vec3) -> Vec3
        ensures { result ≡ minus self other }
    {
        self.pairwise(other, |a, b| a - b)
    }

    // Each component with its sign turned.
    #[tactic(auto, unfolding(crate::specs::Vector::negated))]
    pub fn negated(self) -> Vec3
        ensures { result ≡ negated self }
    {
        self.each(|a| -a)
    }

    // Each component times k.
    #[tactic(auto, unfolding(crate::specs::Vector::scaled))]
    pub fn scaled(self, k: f64) -> Vec3
        ensures { result ≡ scaled self k }
    {
        self.each(|a| a * k)
    }

    // Each component divided by k.
    #[tactic(auto, unfolding(crate::specs::Vector::divided))]
    pub fn divided(self, k: f64) -> Vec3
        ensures { result ≡ divided self k }
    {
        self.each(|a| a / k)
    }

    // (x·x' + y·y') + z·z'
    #[tactic(auto, unfolding(crate::specs::Vector::dot))]
    pub fn dot(self, other: Vec3) -> f64
        ensures { result ≡ dot self other }
    {
        (self.x * other.x + self.y * other.y) + self.z * other.z
    }

    // (y·z' - z·y', z·x' - x·z', x·y' - y·x')
    #[tactic(auto, unfolding(crate::specs::Vector::cross, crate::specs::Vector::minor))]
    pub fn cross(self, other: Vec3) -> Vec3
        ensures { result ≡ cross self other }
    {
        Vec3 {
            x: self.y * other.z - self.z * other.y,
            y: self.z * other.x - self.x * other.z,
            z: self.x * other.y - self.y * other.x,
        }
    }

    // The lesser numbers, by component; `self` is the running one.
    #[tactic(auto, unfolding(crate::specs::Vector::least))]
    pub fn least(self, other: Vec3) -> Vec3
        ensures { result ≡ least self other }
    {
        self.pairwise(other, |a, b| float::lesser(a, b))
    }

    // The greater numbers, by component; `self` is the running one.
    #[tactic(auto, unfolding(crate::specs::Vector::greatest))]
    pub fn greatest(self, other: Vec3) -> Vec3
        ensures { result ≡ greatest self other }
    {
        self.pairwise(other, |a, b| float::greater(a, b))
    }

    // The lesser numbers by one comparison each: as `least` where no number of `self`, the running one, is a NaN; a NaN there is kept.
    #[tactic(auto, unfolding(crate::specs::Vector::lowest))]
    pub fn lowest(self, other: Vec3) -> Vec3
        ensures { result ≡ lowest self other }
    {
        self.pairwise(other, |a, b| float::lower(a, b))
    }

    // The greater numbers, likewise: as `greatest`.
    #[tactic(auto, unfolding(crate::specs::Vector::highest))]
    pub fn highest(self, other: Vec3) -> Vec3
        ensures { result ≡ highest self other }
    {
        self.pairwise(other, |a, b| float::higher(a, b))
    }

    // The component on an axis: x at 0, y at 1, z at 2 and beyond.
    #[tactic(auto, unfolding(crate::specs::Vector::along))]
    pub fn along(self, axis: usize) -> f64
        ensures { result ≡ along axis self }
    {
        if axis == 0 {
            return self.x;
        }
        if axis == 1 {
            return self.y;
        }
        self.z
    }

    // Whether each component is a number of magnitude at most the limit.
    #[tactic(auto, unfolding(crate::specs::Vector::all_within))]
    pub fn within(self, limit: f64) -> bool
        ensures { result ≡ all_within limit self }
    {
        limited(self.x, limit) && limited(self.y, limit) && limited(self.z, limit)
    }

    // Whether each component is at most the other's.
    #[tactic(auto, unfolding(crate::specs::Vector::all_at_most))]
    pub fn at_most(self, other: Vec3) -> bool
        ensures { result ≡ all_at_most self other }
    {
        self.x <= other.x && self.y <= other.y && self.z <= other.z
    }

    // Whether each component numerically equals k.
    #[tactic(auto, unfolding(crate::specs::Vector::all_equal))]
    pub fn all_equal(self, k: f64) -> bool
        ensures { result ≡ all_equal k self }
    {
        self.x == k && self.y == k && self.z == k
    }

    // The three numbers of a lent slice from place `at` on; a NaN for each place beyond its end. (Number by number alone would look at the end three times.)
    pub fn read(numbers: &[f64], at: usize) -> Vec3
        ensures { result ≡ vector_at numbers.now at }
    {
        if at < numbers.len() {
            if 2 < numbers.len() - at {
                return Vec3 {
                    x: numbers[at],
                    y: numbers[at + 1],
                    z: numbers[at + 2],
                };
            }
            let x = number(numbers, at);
            let y = number(numbers, at + 1);
            let z = number(numbers, at + 2);
            return Vec3 { x, y, z };
        }
        let none = number(numbers, numbers.len());
        Vec3 {
            x: none,
            y: none,
            z: none,
        }
    }
}

// Whether x is a number of magnitude at most the limit: it and its opposite are.
fn limited(x: f64, limit: f64) -> bool
    ensures { result ≡ within limit x }
{
    x <= limit && -x <= limit
}

// The number at a place of a lent slice, or a NaN beyond its end.
fn number(numbers: &[f64], at: usize) -> f64
    ensures { result ≡ number_at numbers.now at }
{
    if at < numbers.len() {
        numbers[at]
    } else {
        f64::NAN
    }
}

// Where record i of a lent slice starts, `width` numbers each, or the slice's end where it would start beyond it.
pub fn place(numbers: &[f64], i: usize, width: usize) -> usize
    ensures { result ≡ min (i * width) (length numbers.now) }
{
    if width == 0 {
        return 0;
    }
    if i <= numbers.len() / width {
        return i * width;
    }
    numbers.len()
}

#[derive(Clone, Copy)]
pub struct Ray {
    pub origin: Vec3,
    pub direction: Vec3,
}

impl Ray {
    // Ray k of a lent slice, six numbers each: origin, direction; a NaN for each place beyond its end.
    pub fn read(numbers: &[f64], k: usize) -> Ray
        ensures { result ≡ ray_at numbers.now k }
    {
        let at = place(numbers, k, 6);
        let origin = Vec3::read(numbers, at);
        let direction = Vec3::read(numbers, at + 3);
        Ray { origin, direction }
    }

    // The point at t: origin + direction·t, by component.
    #[tactic(auto, unfolding(crate::specs::Vector::point_at))]
    pub fn at(self, t: f64) -> Vec3
        ensures { result ≡ point_at self t }
    {
        self.origin.plus(self.direction.scaled(t))
    }

    // Whether the ray is admitted (rule N3): no number of its origin beyond 2^40 in size, none of its direction beyond 2. Zeros will do.
    #[tactic(auto, unfolding(crate::specs::Vector::admitted_ray))]
    pub fn admitted(self) -> bool
        ensures { result ≡ admitted_ray self }
    {
        self.origin.within(float::TWO_TO_40) && self.direction.within(2.0)
    }
}
