// Runs the ground layer (order, aabb, triangle) on values where zeros, infinities, NaNs and subnormals matter, and prints each answer by
// its bits. What it prints is held to the file stdout beside it.
#![tactic(auto)]

use aabb::{Aabb, Ray, Span, Vec3};
use triangle::Triangle;

// Zeros, the least subnormal, -1, the greatest number, the infinities and a NaN, by their bits.
const PATTERNS: [u64; 8] = [
    0x0000_0000_0000_0000,
    0x8000_0000_0000_0000,
    0x0000_0000_0000_0001,
    0xbff0_0000_0000_0000,
    0x7fef_ffff_ffff_ffff,
    0x7ff0_0000_0000_0000,
    0xfff0_0000_0000_0000,
    0x7ff4_0000_0000_0000,
];

fn main() {
    for pattern in PATTERNS {
        orders(pattern);
    }
    boxes();
    slabs();
    triangles();
    reading();
}

// ---- what is asked
fn point(x: f64, y: f64, z: f64) -> Vec3 {
    Vec3 { x, y, z }
}

fn cast(origin: Vec3, direction: Vec3) -> Ray {
    Ray { origin, direction }
}

fn bounds(min: Vec3, max: Vec3) -> Aabb {
    Aabb { min, max }
}

// ---- printing (each program stands alone, so these few lines stand in each)
fn number(x: f64) {
    io::write_all(1, b" ");
    io::print_hex(1, float::bits(x), 16);
}

fn flag(yes: bool) {
    io::write_all(1, if yes { b" yes" } else { b" no" });
}

fn vector(v: Vec3) {
    number(v.x);
    number(v.y);
    number(v.z);
}

fn end() {
    io::write_all(1, b"\n");
}

// ---- order
// Lesser, greater and total order of x with eight numbers, and its magnitude.
fn orders(pattern: u64) {
    let x = float::from_bits(pattern);
    io::write_all(1, b"magnitude");
    number(x);
    number(float::magnitude(x));
    end();
    let others = [
        0.0,
        -0.0,
        5e-324,
        -1.0,
        1.7976931348623157e308,
        f64::INFINITY,
        -f64::INFINITY,
        f64::NAN,
    ];
    for y in others {
        pair(x, y);
    }
}

fn pair(x: f64, y: f64) {
    io::write_all(1, b"lesser, greater, before");
    number(x);
    number(y);
    number(float::lesser(x, y));
    number(float::greater(x, y));
    flag(float::total_less(x, y));
    end();
}

// ---- boxes
fn show_box(b: Aabb) {
    io::write_all(1, b"box");
    vector(b.min);
    vector(b.max);
    end();
    io::write_all(1, b"  center, extent, area");
    vector(b.center());
    vector(b.extent());
    number(b.surface_area());
    end();
    io::write_all(1, b"  bounded, empty, usable");
    flag(b.bounded());
    flag(b.is_empty());
    flag(b.usable());
    end();
}

fn boxes() {
    let nan = f64::NAN;
    let zero = point(0.0, -0.0, 0.0);
    let turned = point(-0.0, 0.0, nan);
    let high = point(1.0, 2.0, 1099511627776.0);
    let beyond = point(1.0, 2.0, 1099511627776.0003);
    let tiny = point(5e-324, -5e-324, 2.2250738585072014e-308);
    let e = Aabb::empty();
    show_box(e);
    show_box(e.grow(zero));
    show_box(e.grow(zero).grow(turned));
    show_box(e.grow(turned).grow(zero));
    show_box(Aabb::from_points(zero, high, tiny));
    show_box(Aabb::from_points(zero, beyond, tiny));
    show_box(e.union(Aabb::from_points(tiny, tiny, tiny)));
    show_box(bounds(high, zero));
    show_box(bounds(zero, turned));
}

// ---- the slab test
fn slab(b: Aabb, ray: Ray) {
    io::write_all(1, b"slab");
    match b.intersect_ray(ray) {
        None => {
            io::write_all(1, b" missed");
        }
        Some(Span { enter, exit }) => {
            number(enter);
            number(exit);
        }
    }
    flag(ray.admitted());
    end();
}

fn slabs() {
    let nan = f64::NAN;
    let inf = f64::INFINITY;
    let low = point(0.0, 0.0, 0.0);
    let high = point(1.0, 1.0, 1.0);
    let unit = bounds(low, high);
    let above = point(0.5, 0.5, 2.0);
    let down = point(0.0, 0.0, -1.0);
    let ones = point(1.0, 1.0, 1.0);
    // P8: |dir| below 1e-12 is parallel, 2^-39 is not
    slab(unit, cast(above, point(0.0, 0.0, -9.094947017729282e-13)));
    slab(unit, cast(above, point(0.0, 0.0, -1.8189894035458565e-12)));
    // P1: the empty box
    slab(Aabb::empty(), cast(above, ones));
    slab(Aabb::empty(), cast(above, down));
    // -0, a subnormal, an infinite and a NaN direction
    slab(unit, cast(above, point(-0.0, 5e-324, -1.0)));
    slab(unit, cast(above, point(0.0, 0.0, -inf)));
    slab(unit, cast(above, point(nan, 0.0, -1.0)));
    // on a plane, behind, beside
    slab(unit, cast(high, down));
    slab(unit, cast(above, ones));
    slab(unit, cast(point(2.0, 0.5, 2.0), down));
    // a box with a NaN, one without end, and one whose sides are exchanged
    slab(bounds(point(nan, 0.0, 0.0), high), cast(above, down));
    slab(bounds(point(-inf, -inf, -inf), high), cast(low, ones));
    slab(bounds(high, low), cast(above, down));
}

// ---- triangles
fn meet(a: Triangle, ray: Ray, k: u32) {
    io::write_all(1, b"triangle ");
    io::print_decimal(1, k as u64);
    flag(a.admitted());
    match a.intersect(ray, k, 70) {
        None => {
            io::write_all(1, b" nothing");
        }
        Some(hit) => {
            number(hit.t);
            vector(hit.point);
            vector(hit.normal);
            flag(hit.front);
        }
    }
    end();
}

fn triangles() {
    let nan = f64::NAN;
    let v0 = point(0.0, 0.0, 0.0);
    let v1 = point(1.0, 0.0, 0.0);
    let v2 = point(0.0, 1.0, 0.0);
    let normal = point(0.0, 0.0, 1.0);
    let a = Triangle { v0, v1, v2, normal };
    let down = point(0.0, 0.0, -1.0);
    let up = point(0.0, 0.0, 1.0);
    // P2 to P7
    meet(a, cast(point(0.25, 0.25, 1.0), down), 2);
    meet(a, cast(point(0.25, 0.25, -1.0), up), 3);
    meet(a, cast(point(0.75, 0.75, 1.0), down), 4);
    meet(a, cast(point(2.0, 0.25, 1.0), down), 5);
    meet(a, cast(point(0.5, 0.5, 1.0), down), 6);
    meet(a, cast(point(0.25, 0.25, 9.5367431640625e-7), down), 7);
    meet(a, cast(point(0.25, 0.25, 1.9073486328125e-6), down), 7);
    // a NaN u misses, a NaN v passes
    meet(a, cast(point(nan, 0.25, 1.0), down), 8);
    let far = point(0.0, 1e200, 1e200);
    meet(
        Triangle {
            v0,
            v1: far,
            v2: v1,
            normal,
        },
        cast(point(0.0, 1e150, 1e150), down),
        9,
    );
    // direction·normal = 0 is no front; a zero direction; a triangle without area; one that is not admitted
    meet(
        Triangle {
            v0,
            v1,
            v2,
            normal: v0,
        },
        cast(point(0.25, 0.25, 1.0), down),
        10,
    );
    meet(a, cast(point(0.25, 0.25, 1.0), v0), 11);
    meet(
        Triangle {
            v0,
            v1,
            v2: v1,
            normal,
        },
        cast(point(0.25, 0.25, 1.0), down),
        12,
    );
    meet(
        Triangle {
            v0,
            v1,
            v2,
            normal: point(0.0, 0.0, 2.0000000000000004),
        },
        cast(point(0.25, 0.25, 1.0), down),
        13,
    );
    io::write_all(1, b"centroid");
    vector(a.centroid());
    vector(Triangle {
        v0: v1,
        v1,
        v2,
        normal,
    }
    .centroid());
    end();
}

// ---- numbers of a lent slice, and beyond its end
fn reading() {
    let numbers = [
        1.0, 2.0, 3.0, 4.0, 5.0, 6.0, 7.0, 8.0, 9.0, 0.0, 0.0, 1.0, 0.5,
    ];
    let a = Triangle::read(&numbers, 0);
    io::write_all(1, b"read");
    vector(a.v2);
    vector(a.normal);
    end();
    let b = Triangle::read(&numbers, 1);
    io::write_all(1, b"read");
    vector(b.v0);
    vector(b.normal);
    end();
    let c = Aabb::read(&numbers, usize::MAX);
    io::write_all(1, b"read");
    vector(c.min);
    end();
}
