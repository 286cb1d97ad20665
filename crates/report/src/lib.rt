// The work of the survey program (rules I1 to I6): the input's bytes are measured and read, the tree is built, each ray is walked,
// and the report is written as text. The program itself only reads, calls `survey` and writes.
#![tactic(auto)]

mod input; // input.rt: the input, measured
mod number; // number.rt: numbers of the input
mod text; // text.rt: bytes and digits, written into lent room
mod line; // line.rt: the report's lines

ghost use Rattle.std.specs.Prelude.{◌+◌, ◌*◌, ◌≤◌, length};
ghost use Rattle.io.specs.Counts.{IsPrefixLen};
ghost use Rattle.report.specs.Input.{most};
ghost use Rattle.report.specs.Text.{Wrote};
ghost use Rattle.report.specs.Survey.{ray_lines, reported, surveyed};

pub use input::{Input, measure};
use lent::Refused;
use tree::Lent;

// The report of an input, as text at the front of `out`, and how many bytes of it there are; the rest of `out` stays. One line, `bad input`,
// where the input is not what rule I2 says; one line where the build is refused; else the tree's counts and a line for each ray.
// 25,728 bytes are 201 lines of 128.
pub fn survey(input: &[u8], out: &mut [u8; 25728]) -> usize
    ensures wrote { Wrote out.old 0 (surveyed input.now) out.new result }
    ensures prefix_len { IsPrefixLen result out.new }
{
    let Some(found) = measure(input) else {
        return text::put(out, 0, b"bad input\n");
    };
    let mut mesh = [0.0f64; 2400];
    let end = found.triangles * 12;
    number::fill(input, 4, &mut mesh[0..end]);
    report(input, &mesh[0..end], found, out)
}

// The report of the triangles and the input's rays.
fn report(input: &[u8], triangles: &[f64], found: Input, out: &mut [u8]) -> usize
    requires { (found.triangles ≤ most) × (found.rays ≤ most) × (8 + 96 * found.triangles + 48 * found.rays ≤ length input.now) × (25728 ≤ length out.old) }
    ensures { Wrote out.old 0 (reported input.now triangles.now found.triangles found.rays) out.new result }
{
    let n = found.triangles;
    let materials = [0u32; 200];
    let mut index = [0u32; 200];
    let mut boxes = [0.0f64; 2394];
    let mut links = [0u32; 1197];
    match builder::build(triangles, &mut index, &mut boxes, &mut links) {
        Err(Refused { reason, at }) => line::put_build_refused(out, 0, reason.number(), at),
        Ok(tree) => {
            let at = line::put_built(out, 0, tree.nodes, tree.leaves);
            // 200 triangles have at most 399 nodes; this says it where the room is cut.
            let shown = tree.nodes.min(399);
            let b = shown * 6;
            let l = shown * 3;
            let scene = Lent::new(
                triangles,
                &materials[0..n],
                &index[0..n],
                &boxes[0..b],
                &links[0..l],
            );
            put_rays(input, 8 + 96 * n, &scene, found.rays, out, at)
        }
    }
}

// The line of each ray, those that stand in the input from a place on.
fn put_rays(
    input: &[u8],
    from: usize,
    scene: &Lent,
    rays: usize,
    out: &mut [u8],
    at: usize,
) -> usize
    requires { (from + 48 * rays ≤ length input.now) × (at + 128 * rays ≤ length out.old) }
    ensures { Wrote out.old at (ray_lines input.now from scene.now rays) out.new result }
{
    let mut next = at;
    for k in 0..rays {
        let ray = number::ray(input, from + 48 * k);
        next = line::put_ray(out, next, k as u64, walk::walk(scene, ray));
    }
    next
}
