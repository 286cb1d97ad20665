// Builds some twenty meshes and prints each answer, with what the lent lists hold at the end: the index list, then each node's links and the
// bits of its box. Room is lent with one entry or node to spare and marked, so that what a build leaves is seen. Held to the file stdout beside it.
#![tactic(auto)]

use builder::Built;
use lent::Refused;

fn main() {
    small_trees();
    refusals();
    bad_numbers();
    limits();
    many();
    fallback();
    chains();
}

// ---- meshes
// Triangle i: v0, v1, v2, normal.
fn put(mesh: &mut [f64], i: usize, numbers: &[f64; 12]) {
    if i < mesh.len() / 12 {
        mesh[i * 12..i * 12 + 12].copy_from_slice(numbers);
    }
}

// Triangle i: (s,0,0), (m,0,0), (e,h,0), normal (0,0,1).
fn flat(mesh: &mut [f64], i: usize, s: f64, m: f64, e: f64, h: f64) {
    put(
        mesh,
        i,
        &[s, 0.0, 0.0, m, 0.0, 0.0, e, h, 0.0, 0.0, 0.0, 1.0],
    );
}

// n triangles (s,0,0), (s+w,0,0), (s,w,0), each a step after the last.
fn row(mesh: &mut [f64], n: u32, step: f64, w: f64) {
    for i in 0..n {
        let s = (i as f64) * step;
        flat(mesh, i as usize, s, s + w, s, w);
    }
}

// n triangles with boxes one in the other, their centroids by turns at the left and the right end: each division takes one away.
fn chain(mesh: &mut [f64], n: usize) {
    let mut w = 1048576.0;
    for i in 0..n {
        let turned = if i % 2 == 0 { -w } else { w };
        flat(mesh, i, -w, turned, w, 1.0);
        w = w * 0.7;
    }
}

// Triangle i, upright at x, from y up.
fn upright(mesh: &mut [f64], i: usize, x: f64, y: f64) {
    put(
        mesh,
        i,
        &[x, y, 0.0, x, y + 1.0, 0.0, x, y, 1.0, 1.0, 0.0, 0.0],
    );
}

// Two heaps of three whose centroids lie three ulps apart near 2^40: the position rounds to the lesser.
fn heaps(mesh: &mut [f64]) {
    for i in 0..3 {
        upright(mesh, 2 * i, 1099511627776.0, 0.0);
        upright(mesh, 2 * i + 1, 1099511627775.9996337890625, 100.0);
    }
}

// ---- printing (each program stands alone, so these few lines stand in each)
fn number(n: usize) {
    io::write_all(1, b" ");
    io::print_decimal(1, n as u64);
}

fn numbers(list: &[u32]) {
    for n in list {
        number(*n as usize);
    }
}

fn end() {
    io::write_all(1, b"\n");
}

fn answer(r: Result<Built, Refused>) {
    match r {
        Ok(Built { nodes, leaves }) => {
            io::write_all(1, b"nodes");
            number(nodes);
            io::write_all(1, b" leaves");
            number(leaves);
        }
        Err(Refused { reason, at }) => {
            io::write_all(1, b"refused");
            number(reason.number() as usize);
            io::write_all(1, b" at");
            number(at);
        }
    }
    end();
}

fn list(index: &[u32]) {
    io::write_all(1, b"list");
    numbers(index);
    end();
}

fn bits(pattern: u64) {
    if pattern == 0 {
        io::write_all(1, b" 0");
    } else {
        io::write_all(1, b" ");
        io::print_hex(1, pattern, 16);
    }
}

fn nodes(boxes: &[f64], links: &[u32]) {
    for (i, link) in links.chunks_exact(3).enumerate() {
        io::write_all(1, b"node");
        number(i);
        io::write_all(1, b":");
        numbers(link);
        io::write_all(1, b";");
        bounds(boxes, i);
        end();
    }
}

// As many numbers of box i as there are.
fn bounds(boxes: &[f64], i: usize) {
    if let Some(numbers) = boxes.chunks(6).nth(i) {
        for x in numbers {
            bits(float::bits(*x));
        }
    }
}

// ---- builds
fn run(name: &[u8], mesh: &[f64], index: &mut [u32], boxes: &mut [f64], links: &mut [u32]) {
    io::write_all(1, name);
    io::write_all(1, b": ");
    answer(builder::build(mesh, index, boxes, links));
    list(index);
    nodes(boxes, links);
}

// In room for five triangles and one to spare.
fn in_six(name: &[u8], mesh: &[f64]) {
    let mut index = [9u32; 6];
    let mut boxes = [0.5; 66];
    let mut links = [9u32; 33];
    run(name, mesh, &mut index, &mut boxes, &mut links);
}

fn small_trees() {
    let none = [0.0; 0];
    let mut index = [9u32; 1];
    let mut boxes = [0.5; 12];
    let mut links = [9u32; 6];
    run(b"none", &none, &mut index, &mut boxes, &mut links);
    let mut one = [0.0; 12];
    row(&mut one, 1, 0.0, 1.0);
    in_six(b"one", &one);
    let mut four = [0.0; 48];
    row(&mut four, 4, 16.0, 3.0);
    in_six(b"four apart", &four);
    let mut copies = [0.0; 60];
    row(&mut copies, 5, 0.0, 1.0);
    in_six(b"five copies", &copies);
    let mut five = [0.0; 60];
    row(&mut five, 5, 16.0, 3.0);
    in_six(b"five apart", &five);
    let mut line = [0.0; 60];
    row(&mut line, 5, 16.0, 0.0);
    in_six(b"five points on a line", &line);
}

fn refusals() {
    let cut = [0.0; 59];
    in_six(b"a number short", &cut);
    let over = [0.0; 13];
    in_six(b"a number over", &over);
    let mut five = [0.0; 60];
    row(&mut five, 5, 16.0, 3.0);
    let mut few = [9u32; 4];
    let mut boxes = [0.5; 54];
    let mut links = [9u32; 27];
    run(
        b"index room of four",
        &five,
        &mut few,
        &mut boxes,
        &mut links,
    );
    let mut index = [9u32; 5];
    let mut low = [0.5; 53];
    run(
        b"boxes a number short",
        &five,
        &mut index,
        &mut low,
        &mut links,
    );
    let mut thin = [9u32; 26];
    run(
        b"links a number short",
        &five,
        &mut index,
        &mut boxes,
        &mut thin,
    );
    run(
        b"room that just suffices",
        &five,
        &mut index,
        &mut boxes,
        &mut links,
    );
    let none = [0.0; 0];
    let mut no_box = [0.5; 5];
    run(
        b"none, and no room",
        &none,
        &mut few,
        &mut no_box,
        &mut thin,
    );
}

fn bad_numbers() {
    let nan = f64::NAN;
    let mut mesh = [0.0; 60];
    row(&mut mesh, 5, 16.0, 3.0);
    mesh[43] = nan;
    in_six(b"a NaN in triangle 3", &mesh);
    mesh[14] = f64::INFINITY;
    in_six(b"and infinity in triangle 1", &mesh);
    mesh[11] = -2.0000000000000004;
    in_six(b"and a normal over 2 in triangle 0", &mesh);
    let mut index = [9u32; 5];
    let mut boxes = [0.5; 53];
    let mut links = [9u32; 27];
    run(
        b"the same, and too few boxes",
        &mesh,
        &mut index,
        &mut boxes,
        &mut links,
    );
}

fn limits() {
    let mut mesh = [0.0; 60];
    row(&mut mesh, 5, 16.0, 3.0);
    mesh[12] = 1099511627776.0;
    mesh[35] = -2.0;
    in_six(b"2^40 and -2", &mesh);
    mesh[12] = 1099511627776.000244140625;
    in_six(b"beyond 2^40", &mesh);
}

fn many() {
    let mesh = [0.0; 786444];
    let mut index = [9u32; 1];
    let mut boxes = [0.5; 6];
    let mut links = [9u32; 3];
    run(
        b"65,537 triangles",
        &mesh,
        &mut index,
        &mut boxes,
        &mut links,
    );
}

fn fallback() {
    let mut mesh = [0.0; 72];
    heaps(&mut mesh);
    let mut index = [9u32; 6];
    let mut boxes = [0.5; 66];
    let mut links = [9u32; 33];
    run(
        b"fallback near 2^40",
        &mesh,
        &mut index,
        &mut boxes,
        &mut links,
    );
}

fn chains() {
    let mut mesh = [0.0; 804];
    chain(&mut mesh, 67);
    let mut index = [9u32; 67];
    let mut boxes = [0.5; 798];
    let mut links = [9u32; 399];
    io::write_all(1, b"a chain of 67: ");
    answer(builder::build(&mesh, &mut index, &mut boxes, &mut links));
    list(&index);
    list(&links);
    let mut more = [0.0; 816];
    chain(&mut more, 68);
    let mut room = [9u32; 69];
    let mut sides = [0.5; 816];
    let mut ties = [9u32; 408];
    run(b"a chain of 68", &more, &mut room, &mut sides, &mut ties);
}
