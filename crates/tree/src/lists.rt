// What a caller lends, in two parts: a mesh, and the lists that hold a tree over it (rules D1 to D3, D9). In a clause each is its record of lists
// (specs/Lent.antt).
ghost use Rattle.std.specs.Prelude.{◌≡◌, IfOk};
ghost use Rattle.lent.specs.Ladder.{triangle_count, labelled_checks, first_failed};
ghost use Rattle.lent.specs.Refusals.{refusal_of};
ghost use Rattle.tree.specs.Lent.{Mesh as Faces, Lists as Nodes, Lent as Whole, mesh_of, lists_of, lent};

use lent::{Reason, Refused};
use std::marker::Model;

// Twelve numbers a triangle, and a material.
#[derive(Drop)]
pub struct Mesh<'a> {
    pub triangles: &'a [f64],
    pub materials: &'a [u32],
}

// Triangle numbers; six numbers of box a node; three links a node.
#[derive(Drop)]
pub struct Lists<'a> {
    pub index: &'a [u32],
    pub boxes: &'a [f64],
    pub links: &'a [u32],
}

#[derive(Drop)]
pub struct Lent<'a> {
    pub mesh: Mesh<'a>,
    pub tree: Lists<'a>,
}

impl<'a> Model for Mesh<'a> {
    ghost Value = { Faces };

    ghost view = { λ m. mesh_of m.triangles.now m.materials.now };
}

impl<'a> Model for Lists<'a> {
    ghost Value = { Nodes };

    ghost view = { λ s. lists_of s.index.now s.boxes.now s.links.now };
}

impl<'a> Model for Lent<'a> {
    ghost Value = { Whole };

    ghost view = { λ s. record { mesh = s.mesh; tree = s.tree } };
}

impl<'a> Lent<'a> {
    // The five lists as one.
    pub fn new(
        triangles: &'a [f64],
        materials: &'a [u32],
        index: &'a [u32],
        boxes: &'a [f64],
        links: &'a [u32],
    ) -> Lent<'a>
        ensures { result ≡ lent triangles.now materials.now index.now boxes.now links.now }
    {
        Lent {
            mesh: Mesh {
                triangles,
                materials,
            },
            tree: Lists {
                index,
                boxes,
                links,
            },
        }
    }
}

impl<'a> Mesh<'a> {
    // How many triangles there are. Refused: 1 and 2 as `triangle::count` says; 18 there is not one material for each.
    #[tactic(auto, unfolding(lent::specs::Ladder::first_failed))]
    pub fn count(&self) -> Result<usize, Refused>
        ensures refusal { refusal_of result ≡ first_failed (labelled_checks self.now.triangles self.now.materials) }
        ensures count { IfOk result (λ n. n ≡ triangle_count self.now.triangles) }
    {
        let n = triangle::count(self.triangles)?;
        if self.materials.len() != n {
            return Err(Refused {
                reason: Reason::Unlabelled,
                at: 0,
            });
        }
        Ok(n)
    }
}
