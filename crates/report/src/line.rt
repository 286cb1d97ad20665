// The report's lines. A line takes at most 128 bytes.
ghost use Rattle.std.specs.Prelude.{◌+◌, ◌≤◌, length};
ghost use Rattle.walk.specs.Answer.{told};
ghost use Rattle.report.specs.Text.{Wrote};
ghost use Rattle.report.specs.Lines.{built_line, build_refused_line, hit_line, miss_line, refused_line, ray_line};

use crate::text;
use walk::Answer;

// The first line of a report: the tree's counts.
#[tactic(auto, unfolding(crate::specs::Lines::built_line))]
pub fn put_built(out: &mut [u8], at: usize, nodes: usize, leaves: usize) -> usize
    requires { at + 128 ≤ length out.old }
    ensures { (Wrote out.old at (built_line nodes leaves) out.new result) × (result ≤ at + 128) }
{
    text::put_pair(out, at, b"nodes ", nodes as u64, b" leaves ", leaves as u64)
}

#[tactic(auto, unfolding(crate::specs::Lines::build_refused_line))]
pub fn put_build_refused(out: &mut [u8], at: usize, number: u32, place: usize) -> usize
    requires { at + 128 ≤ length out.old }
    ensures { (Wrote out.old at (build_refused_line number place) out.new result) × (result ≤ at + 128) }
{
    text::put_pair(
        out,
        at,
        b"build refused ",
        u64::from(number),
        b" at ",
        place as u64,
    )
}

// Ray k hit triangle i at the distance whose bits are x, after so many box tests and triangle tests.
fn put_hit(out: &mut [u8], at: usize, k: u64, i: u64, x: u64, boxes: u64, triangles: u64) -> usize
    requires { at + 128 ≤ length out.old }
    ensures { (Wrote out.old at (hit_line k i x boxes triangles) out.new result) × (result ≤ at + 128) }
{
    let a = text::put_named(out, at, b"ray ", k);
    let b = text::put_named(out, a, b" hit ", i);
    let c = text::put(out, b, b" t ");
    let d = text::put_hexadecimal(out, c, x);
    text::put_pair(out, d, b" tests ", boxes, b" ", triangles)
}

fn put_miss(out: &mut [u8], at: usize, k: u64, boxes: u64, triangles: u64) -> usize
    requires { at + 128 ≤ length out.old }
    ensures { (Wrote out.old at (miss_line k boxes triangles) out.new result) × (result ≤ at + 128) }
{
    let a = text::put_named(out, at, b"ray ", k);
    text::put_pair(out, a, b" miss tests ", boxes, b" ", triangles)
}

#[tactic(auto, unfolding(crate::specs::Lines::refused_line))]
fn put_refused(out: &mut [u8], at: usize, k: u64, number: u64) -> usize
    requires { at + 128 ≤ length out.old }
    ensures { (Wrote out.old at (refused_line k number) out.new result) × (result ≤ at + 128) }
{
    text::put_pair(out, at, b"ray ", k, b" refused ", number)
}

// The line of ray k, by the walk's answer.
pub fn put_ray(out: &mut [u8], at: usize, k: u64, answer: Answer) -> usize
    requires { at + 128 ≤ length out.old }
    ensures { (Wrote out.old at (ray_line k (told answer)) out.new result) × (result ≤ at + 128) }
{
    match answer {
        Answer::Struck {
            hit,
            boxes,
            triangles,
        } => put_hit(
            out,
            at,
            k,
            u64::from(hit.triangle),
            float::bits(hit.t),
            boxes,
            triangles,
        ),
        Answer::Missed { boxes, triangles } => put_miss(out, at, k, boxes, triangles),
        Answer::Refused(why) => put_refused(out, at, k, u64::from(why.reason.number())),
    }
}
