// The calls for Rust and C, which the crate pigeonmast_c exports under the same names. Each is a public call of the layers below, with its data as
// plain numbers: a slice passes as pointer and length, `&[f64; 6]` as a pointer. No call asks anything of the numbers; what a call answers and what
// it leaves in everything lent is fixed on every input (specs/Report.antt).
#![tactic(auto)]

ghost use Rattle.std.specs.Prelude.{◌≡◌, [], ◌∷◌};
ghost use Rattle.float.specs.Root.{root};
ghost use Rattle.aabb.specs.Vector.{ray_at, vector_at};
ghost use Rattle.aabb.specs.Bounds.{box_at};
ghost use Rattle.aabb.specs.Slab.{slab};
ghost use Rattle.triangle.specs.Mesh.{triangle_at, triangle_numbers};
ghost use Rattle.triangle.specs.Meeting.{strike};
ghost use Rattle.triangle.specs.Normal.{new_triangle};
ghost use Rattle.triangle.specs.Refilled.{refilled};
ghost use Rattle.lent.specs.Refusals.{refusal_of};
ghost use Rattle.builder.specs.Reply.{reply};
ghost use Rattle.builder.specs.Build.{built};
ghost use Rattle.tree.specs.Lent.{lent};
ghost use Rattle.walk.specs.Answer.{told as answered};
ghost use Rattle.walk.specs.Walk as scene;
ghost use Rattle.sky.specs.Sky.{sky as filled};
ghost use Rattle.watts.specs.Share.{share as share_of};
ghost use Rattle.watts.specs.Watts.{counted, watts_refusal, watts as weighed};
ghost use Rattle.accept.specs.Conditions.{foreign};
ghost use Rattle.accept.specs.Accept.{ruling, accepted};
ghost use Rattle.stl.specs.Answers.{told as stl_answered};
ghost use Rattle.stl.specs.Reading.{read_stl};
ghost use Rattle.stl.specs.Writing.{write_stl};
ghost use Rattle.pigeonmast.specs.Report.{abi, hit_numbers, front_number, side_number, refusal_number, refusal_at, build, build_told, build_report, walk, walked, sky, sky_report, test, slab_report, triangle_report, normals, normals_report, watts, report_numbers, watts_report, share_numbers, accept, accept_told, accept_report, stl_told, stl_read, read_report, stl_written, write_report};

use aabb::{Aabb, Ray, Span, Vec3};
use accept::Rejection;
use builder::Built;
use lent::Refused;
use tree::{Lent, Lists};
use triangle::{Hit, Triangle};
use walk::Answer;
use watts::Report;

// A hit's nine numbers: t, point, normal, u, v.
#[tactic(auto, unfolding(crate::specs::Report::hit_numbers))]
fn hit_numbers(hit: Hit) -> [f64; 9]
    ensures { result ≡ hit_numbers hit }
{
    [
        hit.t,
        hit.point.x,
        hit.point.y,
        hit.point.z,
        hit.normal.x,
        hit.normal.y,
        hit.normal.z,
        hit.u,
        hit.v,
    ]
}

// 1 for a hit from the front, 0 from the back.
#[tactic(auto, unfolding(crate::specs::Report::front_number))]
fn front_number(hit: Hit) -> u64
    ensures { result ≡ front_number hit }
{
    if hit.front { 1 } else { 0 }
}

// 2 for a hit from the front, 1 from the back.
#[tactic(auto, unfolding(crate::specs::Report::side_number))]
fn side_number(hit: Hit) -> u32
    ensures { result ≡ side_number hit }
{
    if hit.front { 2 } else { 1 }
}

// What a build answered: the number, with `told` written.
#[tactic(auto, unfolding(builder::specs::Reply::reply, crate::specs::Report::refusal_number, crate::specs::Report::counts_told, crate::specs::Report::build_told))]
fn tell_build(answer: Result<Built, Refused>, told: &mut [u64; 2]) -> u32
    ensures value { result ≡ refusal_number (reply answer).refusal }
    ensures told_after { told.new ≡ build_told (reply answer) }
{
    match answer {
        Ok(Built { nodes, leaves }) => {
            *told = [nodes as u64, leaves as u64];
            0
        }
        Err(Refused { reason, at }) => {
            *told = [at as u64, 0];
            reason.number()
        }
    }
}

// What a walk answered: the number, with `told` written, and `numbers` where it is a hit.
#[tactic(auto, unfolding(walk::specs::Answer::told, crate::specs::Report::walked, crate::specs::Report::walk_report))]
fn tell_walk(answer: Answer, numbers: &mut [f64; 9], told: &mut [u64; 5]) -> u32
    ensures { walk result numbers.new told.new ≡ walked (answered answer) numbers.old }
{
    match answer {
        Answer::Struck {
            hit,
            boxes,
            triangles,
        } => {
            *numbers = hit_numbers(hit);
            *told = [
                hit.triangle as u64,
                front_number(hit),
                boxes,
                triangles,
                hit.material as u64,
            ];
            100
        }
        Answer::Missed { boxes, triangles } => {
            *told = [0, 0, boxes, triangles, 0];
            0
        }
        Answer::Refused(Refused { reason, at }) => {
            *told = [at as u64, 0, 0, 0, 0];
            reason.number()
        }
    }
}

// What a call answered that has nothing to tell where it is served: 0 or the refusal number, with `at` written.
#[tactic(auto, unfolding(crate::specs::Report::refusal_number, crate::specs::Report::refusal_at))]
fn tell_done(answer: Result<(), Refused>, at: &mut [u64; 1]) -> u32
    ensures value { result ≡ refusal_number (refusal_of answer) }
    ensures at_after { at.new ≡ refusal_at (refusal_of answer) ∷ [] }
{
    match answer {
        Ok(()) => {
            *at = [0];
            0
        }
        Err(refused) => {
            *at = [refused.at as u64];
            refused.reason.number()
        }
    }
}

// What a sky of weighed rays answered: 0 with `report` written, or the refusal number; and `at` written.
#[tactic(auto, unfolding(watts::specs::Watts::watts_refusal, crate::specs::Report::refusal_number, crate::specs::Report::refusal_at, crate::specs::Report::report_numbers))]
fn tell_watts(answer: Result<Report, Refused>, report: &mut [u64; 6], at: &mut [u64; 1]) -> u32
    ensures value { result ≡ refusal_number (watts_refusal (counted answer)) }
    ensures report_after { report.new ≡ report_numbers (counted answer) report.old }
    ensures at_after { at.new ≡ refusal_at (watts_refusal (counted answer)) ∷ [] }
{
    match answer {
        Ok(Report { figures, share }) => {
            *report = [
                figures.shaded,
                figures.open,
                figures.refused,
                figures.total,
                share.above,
                share.below,
            ];
            *at = [0];
            0
        }
        Err(refused) => {
            *at = [refused.at as u64];
            refused.reason.number()
        }
    }
}

// What a slab test answered: 1 with `times` written, or 0.
#[tactic(auto, unfolding(crate::specs::Report::slab_report))]
fn tell_slab(span: Option<Span>, times: &mut [f64; 2]) -> u32
    ensures { test result times.new ≡ slab_report span times.old }
{
    let Some(Span { enter, exit }) = span else {
        return 0;
    };
    *times = [enter, exit];
    1
}

// What a triangle test answered: 2 front or 1 back with `numbers` written, or 0.
#[tactic(auto, unfolding(crate::specs::Report::triangle_report))]
fn tell_triangle(found: Option<Hit>, numbers: &mut [f64; 9]) -> u32
    ensures { test result numbers.new ≡ triangle_report found numbers.old }
{
    let Some(hit) = found else {
        return 0;
    };
    *numbers = hit_numbers(hit);
    side_number(hit)
}

// The number of these calls' form: it rises when a call's parameters, or what it writes, change, so that a caller can tell that its declarations
// are those of the library it is linked with. A call that is added leaves it as it is.
pub fn pigeonmast_abi() -> u32
    ensures { result ≡ abi }
{
    3
}

// A triangle's twelve numbers: v0, v1, v2, normal.
#[tactic(auto, unfolding(triangle::specs::Mesh::triangle_numbers))]
fn triangle_numbers(t: Triangle) -> [f64; 12]
    ensures { result ≡ triangle_numbers t }
{
    [
        t.v0.x, t.v0.y, t.v0.z, t.v1.x, t.v1.y, t.v1.z, t.v2.x, t.v2.y, t.v2.z, t.normal.x, t
            .normal
            .y, t.normal.z,
    ]
}

// What `accept` answered: the number, with `told` written, as C reads it.
#[tactic(auto, using(lent::proofs::Refusals::no_condition), unfolding(accept::specs::Accept::ruling, crate::specs::Report::refusal_number, crate::specs::Report::condition_told, crate::specs::Report::accept_told))]
fn tell_accept(answer: Result<(), Rejection>, told: &mut [u64; 2]) -> u32
    ensures value { result ≡ refusal_number (ruling answer).refusal }
    ensures told_after { told.new ≡ accept_told (ruling answer) }
{
    match answer {
        Ok(()) => {
            *told = [0, 0];
            0
        }
        Err(Rejection::Broken { condition, at }) => {
            *told = [condition.number() as u64, at as u64];
            19 // a condition is broken
        }
        Err(Rejection::Refused(refused)) => {
            *told = [refused.at as u64, 0];
            refused.reason.number()
        }
    }
}

// Builds the tree of the triangles (twelve numbers each: v0, v1, v2, normal) into the lent index list, boxes and links. 0 and told = node
// count, leaf count; or the refusal number and told = at, 0. `builder::build` says what is written and what is refused.
#[tactic(auto, unfolding(crate::specs::Report::build_report))]
pub fn pigeonmast_build(
    triangles: &[f64],
    index: &mut [u32],
    boxes: &mut [f64],
    links: &mut [u32],
    told: &mut [u64; 2],
) -> u32
    ensures { build result told.new index.new boxes.new links.new ≡ build_report (built triangles.now index.old boxes.old links.old) }
{
    let answer = builder::build(triangles, index, boxes, links);
    tell_build(answer, told)
}

// Walks the ray (origin, direction) through the tree; `materials` has one for each triangle. 100 for a hit: numbers = t, point, normal, u, v; told =
// triangle, front (1 or 0), box tests, triangle tests, the triangle's material. 0 for a miss: told = 0, 0, box tests, triangle tests, 0. Else the
// refusal number of `walk::walk`: told = at, 0, 0, 0, 0. numbers stay unchanged unless it is a hit.
pub fn pigeonmast_walk(
    triangles: &[f64],
    materials: &[u32],
    index: &[u32],
    boxes: &[f64],
    links: &[u32],
    ray: &[f64; 6],
    numbers: &mut [f64; 9],
    told: &mut [u64; 5],
) -> u32
    ensures { walk result numbers.new told.new ≡ walked (scene.walk (lent triangles.now materials.now index.now boxes.now links.now) (ray_at ray.now 0)) numbers.old }
{
    let scene = Lent::new(triangles, materials, index, boxes, links);
    let answer = walk::walk(&scene, Ray::read(ray, 0));
    tell_walk(answer, numbers, told)
}

// Walks every ray of `rays` (six numbers each: origin, direction) through the tree. 0 and at = 0: times has three numbers a ray: t, u, v of its hit, else 0, and told
// five numbers a ray: outcome (0 a miss, 100 a hit, or a refusal), the triangle's number or the refusal's at, box tests, triangle tests, material,
// 0 where none applies; room beyond the rays stays. Or refusal 1, 2, 18, 14 or 13 of the whole call (`sky::sky`) with its at; times and told stay
// unchanged.
#[tactic(auto, unfolding(crate::specs::Report::sky_report))]
pub fn pigeonmast_sky(
    triangles: &[f64],
    materials: &[u32],
    index: &[u32],
    boxes: &[f64],
    links: &[u32],
    rays: &[f64],
    times: &mut [f64],
    told: &mut [u64],
    at: &mut [u64; 1],
) -> u32
    ensures { sky result at.new times.new told.new ≡ sky_report (filled (lent triangles.now materials.now index.now boxes.now links.now) rays.now times.old told.old) }
{
    let scene = Lent::new(triangles, materials, index, boxes, links);
    let answer = sky::sky(&scene, rays, times, told);
    tell_done(answer, at)
}

// The slab test of a box (min x, y, z, max x, y, z) and a ray (origin, direction). 1 and times = enter, exit; or 0 and times unchanged.
pub fn pigeonmast_slab(bounds: &[f64; 6], ray: &[f64; 6], times: &mut [f64; 2]) -> u32
    ensures { test result times.new ≡ slab_report (slab (ray_at ray.now 0) (box_at bounds.now 0)) times.old }
{
    let span = Aabb::read(bounds, 0).intersect_ray(Ray::read(ray, 0));
    tell_slab(span, times)
}

// The test of a triangle (v0, v1, v2, normal) and a ray (origin, direction). 2 front or 1 back with numbers = t, point, normal, u, v; or 0
// and numbers unchanged.
pub fn pigeonmast_triangle(triangle: &[f64; 12], ray: &[f64; 6], numbers: &mut [f64; 9]) -> u32
    ensures { test result numbers.new ≡ triangle_report (strike (ray_at ray.now 0) (triangle_at triangle.now 0) 0 0) numbers.old }
{
    let found = Triangle::read(triangle, 0).intersect(Ray::read(ray, 0), 0, 0);
    tell_triangle(found, numbers)
}

// The square root of x (rule F8). Of a zero and of +inf it is x itself; of a NaN, and of whatever is below zero, a NaN.
pub fn pigeonmast_root(x: f64) -> f64
    ensures { result ≡ root x }
{
    float::root(x)
}

// Makes the triangle (v0, v1, v2, normal) of these corners (v0, v1, v2), with the normal that they give, as `Triangle::new` of the Rust.
pub fn pigeonmast_new(corners: &[f64; 9], triangle: &mut [f64; 12])
    ensures { triangle.new ≡ triangle_numbers (new_triangle (vector_at corners.now 0) (vector_at corners.now 3) (vector_at corners.now 6)) }
{
    let v0 = Vec3::read(corners, 0);
    let v1 = Vec3::read(corners, 3);
    let v2 = Vec3::read(corners, 6);
    *triangle = triangle_numbers(Triangle::new(v0, v1, v2));
}

// Refills the normals of the triangles (twelve numbers each) from their corners, in place, and touches nothing else. 0 and told = 0; or refusal 1, 2 or 5
// (`triangle::refill_normals`) with told = at and the triangles unchanged.
#[tactic(auto, unfolding(crate::specs::Report::normals_report))]
pub fn pigeonmast_normals(triangles: &mut [f64], told: &mut [u64; 1]) -> u32
    ensures { normals result told.new triangles.new ≡ normals_report (refilled triangles.old) }
{
    let answer = triangle::refill_normals(triangles);
    tell_done(answer, told)
}

// Walks every ray as `pigeonmast_sky` does, into the same times and told, and weighs it: `weights` has its watts, one number a ray. 0 and at = 0:
// report = shaded watts (hits), open watts (misses), refused watts, total watts, and shaded over shaded and open together in lowest terms, above and
// below, 0 and 1 when those are 0. Or the refusal of the whole call with its at, `pigeonmast_sky`'s, 27 or 28 (`watts::watts`); report, times and
// told stay unchanged.
#[tactic(auto, unfolding(crate::specs::Report::watts_report))]
pub fn pigeonmast_watts(
    triangles: &[f64],
    materials: &[u32],
    index: &[u32],
    boxes: &[f64],
    links: &[u32],
    rays: &[f64],
    weights: &[u32],
    times: &mut [f64],
    told: &mut [u64],
    report: &mut [u64; 6],
    at: &mut [u64; 1],
) -> u32
    ensures { watts result report.new at.new times.new told.new ≡ watts_report (weighed (lent triangles.now materials.now index.now boxes.now links.now) rays.now weights.now times.old told.old) report.old }
{
    let scene = Lent::new(triangles, materials, index, boxes, links);
    let answer = watts::watts(&scene, rays, weights, times, told);
    tell_watts(answer, report, at)
}

// The share that added figures give: shaded over shaded and open together in lowest terms, share = above, below; 0 and 1 where both are 0; 0 and 0 just
// where the lower number would pass 64 bits. Answers 0 on every input.
#[tactic(auto, unfolding(crate::specs::Report::share_numbers))]
pub fn pigeonmast_share(shaded: u64, open: u64, share: &mut [u64; 2]) -> u32
    ensures value { result ≡ 0 }
    ensures share_after { share.new ≡ share_numbers (share_of shaded «open») }
{
    let terms = watts::share(shaded, open);
    *share = [terms.above, terms.below];
    0
}

// Judges a tree that was built elsewhere. 0 and told = 0, 0: it is accepted; 19 and told = the number of the first condition broken, 1 to 6, and the
// lowest place where it breaks; or the refusal number and told = at, 0. `accept::accept` says what is refused, and what the work room holds after it.
#[tactic(auto, unfolding(crate::specs::Report::accept_report))]
pub fn pigeonmast_accept(
    triangles: &[f64],
    index: &[u32],
    boxes: &[f64],
    links: &[u32],
    work: &mut [u32],
    told: &mut [u64; 2],
) -> u32
    ensures { accept result told.new work.new ≡ accept_report (accepted (foreign triangles.now index.now boxes.now links.now) work.old) }
{
    let tree = Lists {
        index,
        boxes,
        links,
    };
    let answer = accept::accept(triangles, &tree, work);
    tell_accept(answer, told)
}

// What a reading or a writing of STL answered: 0 or the refusal number, with `told` written.
#[tactic(auto, unfolding(stl::specs::Answers::told, crate::specs::Report::refusal_number, crate::specs::Report::how_many, crate::specs::Report::stl_told))]
fn tell_stl(answer: Result<usize, Refused>, told: &mut [u64; 1]) -> u32
    ensures value { result ≡ refusal_number (stl_answered answer).refusal }
    ensures told_after { told.new ≡ stl_told (stl_answered answer) }
{
    match answer {
        Ok(count) => {
            *told = [count as u64];
            0
        }
        Err(refused) => {
            *told = [refused.at as u64];
            refused.reason.number()
        }
    }
}

// Reads a file of binary STL into the lent triangles (twelve numbers each) and materials (a 0 each). 0 and told = how many triangles; room beyond them stays. Or
// refusal 15, 2, 16 or 5 (`stl::read`) with told = at, and triangles and materials unchanged.
#[tactic(auto, unfolding(crate::specs::Report::read_report))]
pub fn pigeonmast_read_stl(
    file: &[u8],
    triangles: &mut [f64],
    materials: &mut [u32],
    told: &mut [u64; 1],
) -> u32
    ensures { stl_read result told.new triangles.new materials.new ≡ read_report (read_stl file.now triangles.old materials.old) }
{
    let answer = stl::read(file, triangles, materials);
    tell_stl(answer, told)
}

// Writes the triangles (twelve numbers each) as a file of binary STL into the lent bytes. 0 and told = how many bytes; room beyond them stays. Or refusal 1, 2, 5,
// 17 or 16 (`stl::write`) with told = at, and the file unchanged.
#[tactic(auto, unfolding(crate::specs::Report::write_report))]
pub fn pigeonmast_write_stl(triangles: &[f64], file: &mut [u8], told: &mut [u64; 1]) -> u32
    ensures { stl_written result told.new file.new ≡ write_report (write_stl triangles.now file.old) }
{
    let answer = stl::write(triangles, file);
    tell_stl(answer, told)
}
