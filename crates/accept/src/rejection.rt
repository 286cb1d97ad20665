// Why lists are not accepted.
ghost use Rattle.std.specs.Prelude.{◌≡◌};
ghost use Rattle.accept.specs.declared.rejection.Rejection.TheVariants.{Refused as refused_by};

use lent::Refused;

// What must hold of the lists, each with its number.
#[derive(Clone, Copy, Debug, PartialEq, Eq)]
pub enum Condition {
    // (i): every node can be used, and where there are triangles every box is finite and every leaf has some.
    Faultless = 1,
    // (ii): every node but the root is a child of one node, and the root of none.
    OneParent = 2,
    // (iii): every node is reached from the root, and none is deeper than 63.
    Reached = 3,
    // (iv): each place of the index list is in one leaf.
    Covered = 4,
    // (v): the index list is a permutation of all triangle numbers.
    Permutation = 5,
    // (vi): every box holds what is below it.
    Enclosed = 6,
}

impl Condition {
    ghost use Rattle.accept.specs.Accept.{number, fine, else};

    pub fn number(self) -> u32
        ensures { result ≡ number self }
    {
        self as u32
    }

    // What it says, by the place where it breaks first, if it does.
    pub(crate) fn met(self, breach: Option<usize>) -> Result<(), Rejection>
        ensures { result ≡ else self breach fine }
    {
        match breach {
            Some(at) => Err(Rejection::Broken {
                condition: self,
                at,
            }),
            None => Ok(()),
        }
    }
}

// A refusal, or the first condition that is broken with the lowest place where it breaks, which is an entry of the index list
// for (iv) and (v) and else a node.
#[derive(Clone, Copy, Debug, PartialEq, Eq)]
pub enum Rejection {
    Refused(Refused),
    Broken { condition: Condition, at: usize },
}

impl From<Refused> for Rejection {
    ghost from_gives = { λ r e. e ≡ refused_by r };

    fn from(refused: Refused) -> Rejection {
        Rejection::Refused(refused)
    }
}
