// The five kinds of cases. What the lent rooms hold before a call is that of
// room.rt, but for a sky, where the file has it.
use crate::compare::{same, same_bits, same_numbers};
use crate::input::{Fault, Stored, fill};
use crate::room;
use crate::score::Score;
use std::io::Read;

// What is asked of a case.
#[derive(Clone, Copy, PartialEq, Eq)]
enum Kind {
    Build = 1,
    Walk = 2,
    Slab = 3,
    Triangle = 4,
    Sky = 5,
}

impl TryFrom<u8> for Kind {
    type Error = Fault;

    fn try_from(kind: u8) -> Result<Kind, Fault> {
        match kind {
            1 => Ok(Kind::Build),
            2 => Ok(Kind::Walk),
            3 => Ok(Kind::Slab),
            4 => Ok(Kind::Triangle),
            5 => Ok(Kind::Sky),
            _ => Err(Fault::Unknown),
        }
    }
}

// What a walk and a sky are lent: a mesh and a tree over it. (Crate tree's `Lent` is not among what replay is built on, the exported calls alone.)
#[derive(Drop)]
struct Lent<'a> {
    triangles: &'a [f64],
    materials: &'a [u32],
    index: &'a [u32],
    boxes: &'a [f64],
    links: &'a [u32],
}

// The case that the file has next, its kind first.
pub fn next<R: Read>(file: &mut R, score: Score) -> Result<Score, Fault> {
    match Kind::try_from(u8::read(file)?)? {
        Kind::Slab => Ok(score.with(slab(file)?)),
        Kind::Triangle => Ok(score.with(triangle(file)?)),
        kind => lists(file, kind, score),
    }
}

fn slab<R: Read>(file: &mut R) -> Result<bool, Fault> {
    let mut bounds = [0.0; 6];
    fill(file, &mut bounds)?;
    let mut ray = [0.0; 6];
    fill(file, &mut ray)?;
    let mut times = [0.0; 2];
    room::numbers(&mut times);
    let answer = pigeonmast::pigeonmast_slab(&bounds, &ray, &mut times);
    Ok(same(file, &[answer])? & same_numbers(file, &times)?)
}

fn triangle<R: Read>(file: &mut R) -> Result<bool, Fault> {
    let mut triangle = [0.0; 12];
    fill(file, &mut triangle)?;
    let mut ray = [0.0; 6];
    fill(file, &mut ray)?;
    let mut numbers = [0.0; 9];
    room::numbers(&mut numbers);
    let answer = pigeonmast::pigeonmast_triangle(&triangle, &ray, &mut numbers);
    Ok(same(file, &[answer])? & same_bits(file, &numbers)?)
}

// A build, a walk or a sky: the lengths of the four lists (triangles, index, boxes, links), then the case in as much room. The triangles come first in each;
// in a walk and a sky the materials and the tree come next. (The three share the reading, so a
// closure a kind would be no plainer.)
fn lists<R: Read>(file: &mut R, kind: Kind, score: Score) -> Result<Score, Fault> {
    let mut lengths = [0; 4];
    fill(file, &mut lengths)?;
    let mut triangles = [0.0; 1024];
    let mut index = [0; 128];
    let mut boxes = [0.0; 1024];
    let mut links = [0; 512];
    let triangles = room::cut(&mut triangles, lengths[0])?;
    let index = room::cut(&mut index, lengths[1])?;
    let boxes = room::cut(&mut boxes, lengths[2])?;
    let links = room::cut(&mut links, lengths[3])?;
    fill(file, triangles)?;
    if kind == Kind::Build {
        return Ok(score.with(build(file, triangles, index, boxes, links)?));
    }
    let mut materials = [0; 128];
    let materials = room::cut(&mut materials, u32::read(file)?)?;
    fill(file, materials)?;
    fill(file, index)?;
    fill(file, boxes)?;
    fill(file, links)?;
    let lent = Lent {
        triangles,
        materials,
        index,
        boxes,
        links,
    };
    if kind == Kind::Sky {
        return Ok(score.with(sky(file, &lent)?));
    }
    walk(file, &lent, score)
}

fn build<R: Read>(
    file: &mut R,
    triangles: &[f64],
    index: &mut [u32],
    boxes: &mut [f64],
    links: &mut [u32],
) -> Result<bool, Fault> {
    room::words(index);
    room::numbers(boxes);
    room::words(links);
    let mut told = [0; 2];
    let answer = pigeonmast::pigeonmast_build(triangles, index, boxes, links, &mut told);
    Ok(
        same(file, &[answer])?
            & same(file, &told)?
            & same(file, index)?
            & same_numbers(file, boxes)?
            & same(file, links)?,
    )
}

// A walk's rays, eight at most.
fn walk<R: Read>(file: &mut R, lent: &Lent, start: Score) -> Result<Score, Fault> {
    let rays = u32::read(file)?;
    if 8 < rays {
        return Err(Fault::Large);
    }
    let mut score = start;
    for _ in 0..rays {
        score = score.with(walk_ray(file, lent)?);
    }
    Ok(score)
}

fn walk_ray<R: Read>(file: &mut R, lent: &Lent) -> Result<bool, Fault> {
    let mut ray = [0.0; 6];
    fill(file, &mut ray)?;
    let mut numbers = [0.0; 9];
    room::numbers(&mut numbers);
    let mut told = [0; 5];
    let answer = pigeonmast::pigeonmast_walk(
        lent.triangles,
        lent.materials,
        lent.index,
        lent.boxes,
        lent.links,
        &ray,
        &mut numbers,
        &mut told,
    );
    Ok(same(file, &[answer])? & same_bits(file, &numbers)? & same(file, &told)?)
}

// A sky: the lengths of its rays and of its answer room (times, told), then the call in as much room.
fn sky<R: Read>(file: &mut R, lent: &Lent) -> Result<bool, Fault> {
    let mut lengths = [0; 3];
    fill(file, &mut lengths)?;
    let mut rays = [0.0; 128];
    let mut times = [0.0; 64];
    let mut told = [0; 128];
    let rays = room::cut(&mut rays, lengths[0])?;
    let times = room::cut(&mut times, lengths[1])?;
    let told = room::cut(&mut told, lengths[2])?;
    fill(file, rays)?;
    fill(file, times)?;
    fill(file, told)?;
    let mut at = [0];
    let answer = pigeonmast::pigeonmast_sky(
        lent.triangles,
        lent.materials,
        lent.index,
        lent.boxes,
        lent.links,
        rays,
        times,
        told,
        &mut at,
    );
    Ok(same(file, &[answer])? & same(file, &at)? & same_bits(file, times)? & same(file, told)?)
}
