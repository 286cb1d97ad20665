// Walks hand-made lists, good and hostile, and prints each answer: a hit with its numbers by their bits, or a miss, and both counts; or a
// refusal with its number and place; and skies of rays, with every number of the answer room. What it prints is held to the file stdout beside it.
#![tactic(auto)]

ghost use Rattle.std.specs.Prelude.{◌≤◌};

use aabb::{Ray, Vec3};
use lent::Refused;
use tree::Lent;
use walk::Answer;

fn main() {
    probes();
    split();
    entrances();
    nodes();
    leaves();
    triangles();
    loops();
    ties();
    skies();
}

// ---- printing (each program stands alone, so these few lines stand in each)
fn number(x: f64) {
    io::write_all(1, b" ");
    io::print_hex(1, float::bits(x), 16);
}

fn vector(v: Vec3) {
    number(v.x);
    number(v.y);
    number(v.z);
}

fn count(n: u64) {
    io::write_all(1, b" ");
    io::print_decimal(1, n);
}

fn refused(why: Refused) {
    io::write_all(1, b": refused");
    count(u64::from(why.reason.number()));
    io::write_all(1, b" at");
    count(why.at as u64);
}

fn show(label: &[u8], answer: Answer) {
    io::write_all(1, label);
    match answer {
        Answer::Struck {
            hit,
            boxes,
            triangles,
        } => {
            io::write_all(1, b": hit");
            count(u64::from(hit.triangle));
            io::write_all(1, b" t");
            number(hit.t);
            io::write_all(1, b" point");
            vector(hit.point);
            io::write_all(1, b" normal");
            vector(hit.normal);
            io::write_all(1, if hit.front { b" front" } else { b" back" });
            io::write_all(1, b" u");
            number(hit.u);
            io::write_all(1, b" v");
            number(hit.v);
            io::write_all(1, b" material");
            count(u64::from(hit.material));
            io::write_all(1, b" tests");
            count(boxes);
            count(triangles);
        }
        Answer::Missed { boxes, triangles } => {
            io::write_all(1, b": miss tests");
            count(boxes);
            count(triangles);
        }
        Answer::Refused(why) => {
            refused(why);
        }
    }
    io::write_all(1, b"\n");
}

// ---- rays and what is lent
fn ray(x: f64, y: f64, z: f64, dx: f64, dy: f64, dz: f64) -> Ray {
    Ray {
        origin: Vec3 { x, y, z },
        direction: Vec3 {
            x: dx,
            y: dy,
            z: dz,
        },
    }
}

fn down(x: f64, y: f64, z: f64) -> Ray {
    ray(x, y, z, 0.0, 0.0, -1.0)
}

fn nan() -> f64 {
    float::from_bits(0x7ff8_0000_0000_0000)
}

// The triangle T of the probe table, its box, and a leaf of it alone.
const PROBE: [f64; 12] = [0.0, 0.0, 0.0, 1.0, 0.0, 0.0, 0.0, 1.0, 0.0, 0.0, 0.0, 1.0];

const PROBE_BOX: [f64; 6] = [0.0, 0.0, 0.0, 1.0, 1.0, 0.0];

const LEAF: [u32; 3] = [0, 1, 1];

// The right-angled triangle with its corner at (x, 0, z), legs of this length along x and y, and the normal up.
fn upward(x: f64, z: f64, leg: f64) -> [f64; 12] {
    [x, 0.0, z, x + leg, 0.0, z, x, leg, z, 0.0, 0.0, 1.0]
}

// ---- the probes with one triangle
fn one(label: &[u8], r: Ray) {
    show(
        label,
        walk::walk(&Lent::new(&PROBE, &[70], &[0], &PROBE_BOX, &LEAF), r),
    );
}

fn probes() {
    one(b"P2", down(0.25, 0.25, 1.0));
    one(b"P3", ray(0.25, 0.25, -1.0, 0.0, 0.0, 1.0));
    one(b"P4", down(0.75, 0.75, 1.0));
    one(b"P5", down(2.0, 0.25, 1.0));
    one(b"P6", down(0.5, 0.5, 1.0));
    one(b"P7 at 2^-20", down(0.25, 0.25, 9.5367431640625e-7));
    one(b"P7 at 2^-19", down(0.25, 0.25, 1.9073486328125e-6));
    one(b"zero direction", ray(0.25, 0.25, 0.0, 0.0, 0.0, 0.0));
    one(b"origin NaN", down(nan(), 0.25, 1.0));
    one(b"origin over 2^40", down(0.25, 0.25, 1099511627777.0));
    one(b"direction over 2", ray(0.25, 0.25, 1.0, 0.0, 0.0, -2.5));
    one(
        b"direction infinite",
        ray(0.25, 0.25, 1.0, 0.0, 0.0, -f64::INFINITY),
    );
}

// ---- P10's mesh and tree
fn wide(label: &[u8], r: Ray) {
    let mesh = [0.0, 16.0, 32.0, 48.0, 64.0].map(|x| upward(x, 0.0, 3.0));
    let materials = [80, 81, 82, 83, 84];
    let index = [0, 1, 3, 4, 2];
    let boxes = [
        0.0, 0.0, 0.0, 67.0, 3.0, 0.0, 0.0, 0.0, 0.0, 19.0, 3.0, 0.0, 32.0, 0.0, 0.0, 67.0, 3.0,
        0.0,
    ];
    let links = [1, 0, 0, 0, 2, 1, 2, 3, 1];
    show(
        label,
        walk::walk(
            &Lent::new(mesh.as_flattened(), &materials, &index, &boxes, &links),
            r,
        ),
    );
}

fn split() {
    wide(b"P11", down(17.0, 1.0, 1.0));
    wide(b"P12", down(25.0, 1.0, 1.0));
    wide(b"P10 right leaf", down(33.0, 1.0, 1.0));
    wide(b"P10 outside", down(-1.0, 1.0, 1.0));
    wide(b"P10 direction NaN", ray(17.0, 1.0, 1.0, 0.0, 0.0, nan()));
}

// ---- what is refused before the first step
// One leaf over the triangle T, with so many numbers of each list.
fn cut(
    label: &[u8],
    numbers: usize,
    kinds: usize,
    entries: usize,
    bounds: usize,
    words: usize,
    r: Ray,
)
    requires { (numbers ≤ 12) × (kinds ≤ 2) × (entries ≤ 1) × (bounds ≤ 6) × (words ≤ 3) }
{
    let scene = Lent::new(
        &PROBE[..numbers],
        &[70, 71][..kinds],
        &[0][..entries],
        &PROBE_BOX[..bounds],
        &LEAF[..words],
    );
    show(label, walk::walk(&scene, r));
}

fn entrances() {
    let r = down(0.25, 0.25, 1.0);
    let bad = down(0.25, 0.25, f64::INFINITY);
    cut(b"11 numbers of triangles", 11, 1, 1, 6, 3, r);
    cut(b"1 before 7", 11, 1, 1, 6, 3, bad);
    cut(b"no triangles", 0, 0, 1, 6, 3, r);
    cut(b"no material", 12, 0, 1, 6, 3, r);
    cut(b"two materials", 12, 2, 1, 6, 3, r);
    cut(b"1 before 18", 11, 2, 1, 6, 3, r);
    cut(b"18 before 7", 12, 2, 1, 6, 3, bad);
    cut(b"18 before 8", 12, 2, 1, 6, 0, r);
    cut(b"no links", 12, 1, 1, 6, 0, r);
    cut(b"no links and boxes", 12, 1, 1, 0, 0, r);
    cut(b"2 numbers of links", 12, 1, 1, 4, 2, r);
    cut(b"5 numbers of boxes", 12, 1, 1, 5, 3, r);
    cut(b"7 before 8", 12, 1, 1, 6, 0, bad);
    cut(b"no index list", 12, 1, 0, 6, 3, r);
}

// ---- bad nodes: the root of two nodes, with its numbers given
fn root(label: &[u8], low: f64, high: f64, left_or_first: u32, amount: u32, kind: u32) {
    let boxes = [0.0, 0.0, low, 1.0, 1.0, high, 0.0, 0.0, 0.0, 1.0, 1.0, 0.0];
    let links = [left_or_first, amount, kind, 0, 1, 1];
    let scene = Lent::new(&PROBE, &[70], &[0], &boxes, &links);
    show(label, walk::walk(&scene, down(0.25, 0.25, 1.0)));
}

fn nodes() {
    root(b"kind 2", 0.0, 0.0, 0, 1, 2);
    root(b"kind 2^32 - 1", 0.0, 0.0, 0, 1, 4294967295);
    root(b"internal with count 1", 0.0, 0.0, 0, 1, 0);
    root(b"box with a NaN", nan(), 0.0, 0, 1, 1);
    root(b"box upside down", 1.0, 0.0, 0, 1, 1);
    root(b"box over 2^40", 0.0, 1099511627777.0, 0, 1, 1);
    root(b"box at 2^40", 0.0, 1099511627776.0, 0, 1, 1);
    root(b"box infinite", -f64::INFINITY, f64::INFINITY, 0, 1, 1);
    root(b"right child beyond", 0.0, 0.0, 1, 0, 0);
    root(b"left child beyond", 0.0, 0.0, 2, 0, 0);
    root(b"left child 2^32 - 1", 0.0, 0.0, 4294967295, 0, 0);
    root(b"bad node not passed", 2.0, 3.0, 1, 0, 0);
    vacant(b"empty box, slanted", ray(0.0, 0.0, 0.0, 1.0, 1.0, 1.0));
    vacant(b"empty box, down", down(0.0, 0.0, 0.0));
}

// The tree of no triangles (rule C3).
fn vacant(label: &[u8], r: Ray) {
    let i = f64::INFINITY;
    let boxes = [i, i, i, -i, -i, -i];
    show(
        label,
        walk::walk(&Lent::new(&[], &[], &[], &boxes, &[0, 0, 1]), r),
    );
}

// ---- leaves and their entries: one leaf over two entries
fn leaf(label: &[u8], first: u32, amount: u32, entry: u32, other: u32) {
    let index = [entry, other];
    let links = [first, amount, 1];
    let scene = Lent::new(&PROBE, &[70], &index, &PROBE_BOX, &links);
    show(label, walk::walk(&scene, down(0.25, 0.25, 1.0)));
}

fn leaves() {
    leaf(b"empty leaf at the list's end", 2, 0, 0, 0);
    leaf(b"empty leaf beyond the list's end", 3, 0, 0, 0);
    leaf(b"leaf past the list's end", 1, 2, 0, 0);
    leaf(b"first + count past u32", 4294967295, 2, 0, 0);
    leaf(
        b"first + count past u32 twice",
        4294967295,
        4294967295,
        0,
        0,
    );
    leaf(b"same entry twice", 0, 2, 0, 0);
    leaf(b"first entry out of range", 0, 2, 1, 0);
    leaf(b"second entry out of range", 0, 2, 0, 4294967295);
    leaf(b"entry out of range, not met", 0, 1, 0, 7);
}

// ---- triangles that are not admitted: two triangles, the second with three of its numbers given
fn second(label: &[u8], v1_y: f64, v2_z: f64, normal_z: f64, entry: u32, other: u32) {
    let mut mesh = [upward(0.0, 0.0, 1.0); 2];
    mesh[1][4] = v1_y;
    mesh[1][8] = v2_z;
    mesh[1][11] = normal_z;
    let index = [entry, other];
    let scene = Lent::new(
        mesh.as_flattened(),
        &[70, 71],
        &index,
        &PROBE_BOX,
        &[0, 2, 1],
    );
    show(label, walk::walk(&scene, down(0.25, 0.25, 1.0)));
}

fn triangles() {
    second(b"vertex NaN", nan(), 0.0, 1.0, 0, 1);
    second(b"vertex over 2^40", 0.0, -1099511627777.0, 1.0, 0, 1);
    second(b"normal over 2", 0.0, 0.0, 2.5, 1, 0);
    second(b"normal of 2", 0.0, 0.0, 2.0, 1, 1);
    second(b"not admitted, not met", nan(), 0.0, 1.0, 0, 0);
    second(b"5 before 10", nan(), 0.0, 1.0, 1, 2);
    second(b"10 before 5", nan(), 0.0, 1.0, 2, 1);
    second(b"normal turned", 0.0, 0.0, -1.0, 1, 1);
}

// ---- looping trees: every node internal, its children 0 and 1
fn loop_of(label: &[u8], amount: usize)
    requires { amount ≤ 66 }
{
    let boxes = [0.0; 396];
    let links = [0; 198];
    let scene = Lent::new(
        &PROBE,
        &[70],
        &[0],
        &boxes[..amount * 6],
        &links[..amount * 3],
    );
    show(label, walk::walk(&scene, down(0.0, 0.0, 1.0)));
}

fn loops() {
    loop_of(b"loop of 1", 1);
    loop_of(b"loop of 2", 2);
    loop_of(b"loop of 63", 63);
    loop_of(b"loop of 64", 64);
    loop_of(b"loop of 66: 65 pending", 66);
    shared(b"the root again", 0, 0, 0);
    shared(b"a hit, then a bad node", 0, 1, 2);
    shared(b"a hit, then a leaf beyond", 9, 1, 1);
}

// The root opens node 1, a leaf with a hit, and node 2, with its numbers given.
fn shared(label: &[u8], left_or_first: u32, amount: u32, kind: u32) {
    let boxes = [PROBE_BOX; 3];
    let links = [1, 0, 0, 0, 1, 1, left_or_first, amount, kind];
    let scene = Lent::new(&PROBE, &[70], &[0], boxes.as_flattened(), &links);
    show(label, walk::walk(&scene, down(0.25, 0.25, 1.0)));
}

// ---- ties: two triangles at the same t, in two leaves; the lower number wins, whichever is met first
fn tie(label: &[u8], left: u32, right: u32) {
    let mesh = [
        upward(0.0, 0.0, 1.0),
        upward(0.0, 0.0, 1.0),
        upward(0.0, 0.5, 1.0),
    ];
    let index = [left, right];
    let boxes = [[0.0, 0.0, 0.0, 1.0, 1.0, 0.5]; 3];
    let links = [1, 0, 0, 0, 1, 1, 1, 1, 1];
    let scene = Lent::new(
        mesh.as_flattened(),
        &[70, 71, 72],
        &index,
        boxes.as_flattened(),
        &links,
    );
    show(label, walk::walk(&scene, down(0.25, 0.25, 1.0)));
}

fn ties() {
    tie(b"tie, 0 first", 0, 1);
    tie(b"tie, 1 first", 1, 0);
    tie(b"nearer second", 0, 2);
    tie(b"nearer first, farther not dropped", 2, 0);
}

// ---- skies: a hit, a ray that isn't admitted and a miss over the triangle T, with so many numbers of rays and of answer room, 9 before
fn sky(label: &[u8], kinds: usize, numbers: usize, timed: usize, words: usize)
    requires { (kinds ≤ 2) × (numbers ≤ 18) × (timed ≤ 12) × (words ≤ 20) }
{
    let rays = [
        0.25,
        0.25,
        1.0,
        0.0,
        0.0,
        -1.0,
        nan(),
        0.25,
        1.0,
        0.0,
        0.0,
        -1.0,
        2.0,
        0.25,
        1.0,
        0.0,
        0.0,
        -1.0,
    ];
    let mut times = [9.0; 12];
    let mut told = [9; 20];
    let materials = [70, 71];
    let scene = Lent::new(&PROBE, &materials[..kinds], &[0], &PROBE_BOX, &LEAF);
    io::write_all(1, label);
    match sky::sky(
        &scene,
        &rays[..numbers],
        &mut times[..timed],
        &mut told[..words],
    ) {
        Ok(()) => {
            io::write_all(1, b": places");
        }
        Err(why) => {
            refused(why);
        }
    }
    for (three, five) in times.chunks_exact(3).zip(told.chunks_exact(5)) {
        io::write_all(1, b",");
        for x in three.iter() {
            number(*x);
        }
        for n in five.iter() {
            count(*n);
        }
    }
    io::write_all(1, b"\n");
}

fn skies() {
    sky(b"three rays", 1, 18, 12, 20);
    sky(b"three rays, room that just suffices", 1, 18, 9, 15);
    sky(b"one ray", 1, 6, 12, 20);
    sky(b"no rays", 1, 0, 0, 0);
    sky(b"no material", 0, 18, 12, 20);
    sky(b"18 before 14", 2, 17, 12, 20);
    sky(b"17 numbers of rays", 1, 17, 12, 20);
    sky(b"14 before 13", 1, 17, 0, 0);
    sky(b"eight times", 1, 18, 8, 20);
    sky(b"14 words", 1, 18, 12, 14);
}
