// The pending node numbers with their count: one state, which each step takes by value and hands back.
ghost use Rattle.std.specs.Prelude.{◌≡◌, [], ◌∷◌, ◌+◌, ◌-◌, ◌<◌, length};
ghost use Rattle.lent.specs.Limits.{most_pending};
ghost use Rattle.walk.specs.inner.State.{pending, besides};

// The first `len` of the numbers are pending; the last of them is taken next. An array and a length, by value: the form that the customer asks for.
#[derive(Clone, Copy)]
pub struct Pending {
    pub nodes: [u32; 64],
    pub len: usize,
}

impl Pending {
    // The root alone.
    pub fn root() -> Pending
        ensures { (result.len ≡ 1) × (pending result ≡ 0 ∷ []) × (length result.nodes ≡ most_pending) }
    {
        Pending {
            nodes: [0; 64],
            len: 1,
        }
    }

    // The last one is dropped: those that are pending besides are left.
    pub fn dropped(self) -> Pending
        requires { 0 < self.len }
        ensures { (result.len ≡ self.len - 1) × (result.nodes ≡ self.nodes) }
    {
        Pending {
            len: self.len - 1,
            ..self
        }
    }

    // The last one is opened: right, then left are put on the list in its place.
    pub fn opened(self, left: u32, right: u32) -> Pending
        requires { (0 < self.len) × (self.len < most_pending) × (length self.nodes ≡ most_pending) }
        ensures { (result.len ≡ self.len + 1) × (pending result ≡ left ∷ right ∷ besides self) × (length result.nodes ≡ most_pending) }
    {
        let len = self.len;
        let mut nodes = self.nodes;
        nodes[len - 1] = right;
        nodes[len] = left;
        Pending {
            nodes,
            len: len + 1,
        }
    }
}
