// The exported calls: those of the crate pigeonmast for C and Rust, each under its name and with its clauses, and each that call and nothing more.
// What a call does is said where it stands; how its data passes, bindings/c/pigeonmast.h says.
#![tactic(auto)]

ghost use Rattle.std.specs.Prelude.{◌≡◌};
ghost use Rattle.float.specs.Root.{root};
ghost use Rattle.aabb.specs.Vector.{ray_at, vector_at};
ghost use Rattle.aabb.specs.Bounds.{box_at};
ghost use Rattle.aabb.specs.Slab.{slab};
ghost use Rattle.triangle.specs.Mesh.{triangle_at, triangle_numbers};
ghost use Rattle.triangle.specs.Meeting.{strike};
ghost use Rattle.triangle.specs.Normal.{new_triangle};
ghost use Rattle.triangle.specs.Refilled.{refilled};
ghost use Rattle.builder.specs.Build.{built};
ghost use Rattle.tree.specs.Lent.{lent};
ghost use Rattle.walk.specs.Walk as scene;
ghost use Rattle.sky.specs.Sky.{sky as filled};
ghost use Rattle.watts.specs.Share.{share as share_of};
ghost use Rattle.watts.specs.Watts.{watts as weighed};
ghost use Rattle.accept.specs.Conditions.{foreign};
ghost use Rattle.accept.specs.Accept.{accepted};
ghost use Rattle.stl.specs.Reading.{read_stl};
ghost use Rattle.stl.specs.Writing.{write_stl};
ghost use Rattle.pigeonmast.specs.Report.{abi, build, build_report, walk, walked, sky, sky_report, test, slab_report, triangle_report, normals, normals_report, watts, watts_report, share_numbers, accept, accept_report, stl_read, read_report, stl_written, write_report};

#[unsafe(no_mangle)]
pub extern "C" fn pigeonmast_abi() -> u32
    ensures { result ≡ abi }
{
    pigeonmast::pigeonmast_abi()
}

#[unsafe(no_mangle)]
pub extern "C" fn pigeonmast_build(
    triangles: &[f64],
    index: &mut [u32],
    boxes: &mut [f64],
    links: &mut [u32],
    told: &mut [u64; 2],
) -> u32
    ensures { build result told.new index.new boxes.new links.new ≡ build_report (built triangles.now index.old boxes.old links.old) }
{
    pigeonmast::pigeonmast_build(triangles, index, boxes, links, told)
}

#[unsafe(no_mangle)]
pub extern "C" fn pigeonmast_walk(
    triangles: &[f64],
    materials: &[u32],
    index: &[u32],
    boxes: &[f64],
    links: &[u32],
    ray: &[f64; 6],
    numbers: &mut [f64; 9],
    told: &mut [u64; 5],
) -> u32
    ensures { walk result numbers.new told.new ≡ walked (scene.walk (lent triangles.now materials.now index.now boxes.now links.now) (ray_at ray.now 0)) numbers.old }
{
    pigeonmast::pigeonmast_walk(
        triangles, materials, index, boxes, links, ray, numbers, told,
    )
}

#[unsafe(no_mangle)]
pub extern "C" fn pigeonmast_sky(
    triangles: &[f64],
    materials: &[u32],
    index: &[u32],
    boxes: &[f64],
    links: &[u32],
    rays: &[f64],
    times: &mut [f64],
    told: &mut [u64],
    at: &mut [u64; 1],
) -> u32
    ensures { sky result at.new times.new told.new ≡ sky_report (filled (lent triangles.now materials.now index.now boxes.now links.now) rays.now times.old told.old) }
{
    pigeonmast::pigeonmast_sky(
        triangles, materials, index, boxes, links, rays, times, told, at,
    )
}

#[unsafe(no_mangle)]
pub extern "C" fn pigeonmast_slab(bounds: &[f64; 6], ray: &[f64; 6], times: &mut [f64; 2]) -> u32
    ensures { test result times.new ≡ slab_report (slab (ray_at ray.now 0) (box_at bounds.now 0)) times.old }
{
    pigeonmast::pigeonmast_slab(bounds, ray, times)
}

#[unsafe(no_mangle)]
pub extern "C" fn pigeonmast_triangle(
    triangle: &[f64; 12],
    ray: &[f64; 6],
    numbers: &mut [f64; 9],
) -> u32
    ensures { test result numbers.new ≡ triangle_report (strike (ray_at ray.now 0) (triangle_at triangle.now 0) 0 0) numbers.old }
{
    pigeonmast::pigeonmast_triangle(triangle, ray, numbers)
}

#[unsafe(no_mangle)]
pub extern "C" fn pigeonmast_root(x: f64) -> f64
    ensures { result ≡ root x }
{
    pigeonmast::pigeonmast_root(x)
}

#[unsafe(no_mangle)]
pub extern "C" fn pigeonmast_new(corners: &[f64; 9], triangle: &mut [f64; 12])
    ensures { triangle.new ≡ triangle_numbers (new_triangle (vector_at corners.now 0) (vector_at corners.now 3) (vector_at corners.now 6)) }
{
    pigeonmast::pigeonmast_new(corners, triangle);
}

#[unsafe(no_mangle)]
pub extern "C" fn pigeonmast_normals(triangles: &mut [f64], told: &mut [u64; 1]) -> u32
    ensures { normals result told.new triangles.new ≡ normals_report (refilled triangles.old) }
{
    pigeonmast::pigeonmast_normals(triangles, told)
}

#[unsafe(no_mangle)]
pub extern "C" fn pigeonmast_watts(
    triangles: &[f64],
    materials: &[u32],
    index: &[u32],
    boxes: &[f64],
    links: &[u32],
    rays: &[f64],
    weights: &[u32],
    times: &mut [f64],
    told: &mut [u64],
    report: &mut [u64; 6],
    at: &mut [u64; 1],
) -> u32
    ensures { watts result report.new at.new times.new told.new ≡ watts_report (weighed (lent triangles.now materials.now index.now boxes.now links.now) rays.now weights.now times.old told.old) report.old }
{
    pigeonmast::pigeonmast_watts(
        triangles, materials, index, boxes, links, rays, weights, times, told, report, at,
    )
}

#[unsafe(no_mangle)]
pub extern "C" fn pigeonmast_share(shaded: u64, open: u64, share: &mut [u64; 2]) -> u32
    ensures value { result ≡ 0 }
    ensures share_after { share.new ≡ share_numbers (share_of shaded «open») }
{
    pigeonmast::pigeonmast_share(shaded, open, share)
}

#[unsafe(no_mangle)]
pub extern "C" fn pigeonmast_accept(
    triangles: &[f64],
    index: &[u32],
    boxes: &[f64],
    links: &[u32],
    work: &mut [u32],
    told: &mut [u64; 2],
) -> u32
    ensures { accept result told.new work.new ≡ accept_report (accepted (foreign triangles.now index.now boxes.now links.now) work.old) }
{
    pigeonmast::pigeonmast_accept(triangles, index, boxes, links, work, told)
}

#[unsafe(no_mangle)]
pub extern "C" fn pigeonmast_read_stl(
    file: &[u8],
    triangles: &mut [f64],
    materials: &mut [u32],
    told: &mut [u64; 1],
) -> u32
    ensures { stl_read result told.new triangles.new materials.new ≡ read_report (read_stl file.now triangles.old materials.old) }
{
    pigeonmast::pigeonmast_read_stl(file, triangles, materials, told)
}

#[unsafe(no_mangle)]
pub extern "C" fn pigeonmast_write_stl(
    triangles: &[f64],
    file: &mut [u8],
    told: &mut [u64; 1],
) -> u32
    ensures { stl_written result told.new file.new ≡ write_report (write_stl triangles.now file.old) }
{
    pigeonmast::pigeonmast_write_stl(triangles, file, told)
}
