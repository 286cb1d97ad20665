// Why a call is refused, and where (section R of docs/RULES.md).
ghost use Rattle.std.specs.Prelude.{◌≡◌};
ghost use Rattle.lent.specs.Refusals.{number};

// Each reason has the number of documents 01 and 02. 19, a condition that is broken, is crate accept's, which says the condition too.
#[derive(Clone, Copy, Debug, PartialEq, Eq)]
pub enum Reason {
    // The triangles are not in twelves.
    Ragged = 1,
    // There are more of them than a mesh may have.
    Crowded = 2,
    // The index room is less than one number a triangle.
    ShortIndex = 3,
    // There is room for fewer nodes than the triangles can have.
    ShortTree = 4,
    // A triangle isn't admitted.
    BadTriangle = 5,
    // The tree would be too deep.
    Deep = 6,
    // The ray isn't admitted.
    BadRay = 7,
    // The lists of a tree don't fit one another.
    Misfit = 8,
    // A walk can't use the node.
    BadNode = 9,
    // An entry of the index list names nothing.
    BadEntry = 10,
    // More nodes are pending than a walk keeps.
    Full = 11,
    // There are more box tests than nodes.
    Endless = 12,
    // The answer room is too short.
    ShortAnswers = 13,
    // The rays are not in sixes.
    RaggedRays = 14,
    // The file is not as long as its count says.
    BadFile = 15,
    // The room is too short, for work or for what is written.
    ShortRoom = 16,
    // A number is not exactly a binary32.
    Inexact = 17,
    // There is not one material for each triangle.
    Unlabelled = 18,
    // The placements are too many, or their lists not alike.
    BadPlacements = 23,
    // A matrix isn't good.
    BadMatrix = 24,
    // The house has no root box that is bounded.
    BadHouse = 25,
    // A world box isn't bounded.
    BadPlace = 26,
    // There is not one weight for each ray.
    Unweighed = 27,
    // There are more rays than a call weighs.
    CrowdedRays = 28,
}

impl Reason {
    pub fn number(self) -> u32
        ensures { result ≡ number self }
    {
        self as u32
    }
}

// A refusal: the reason, and `at`, which is 0 where there is nothing to point to.
#[derive(Clone, Copy, Debug, PartialEq, Eq)]
pub struct Refused {
    pub reason: Reason,
    pub at: usize,
}
