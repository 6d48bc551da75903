// Where the states of a sequence stand among those of the sequence that it is a part of.
ghost use Rattle.std.specs.Prelude.{◌≡◌, ℕ, ◌≤◌};
ghost use Rattle.automaton.specs.Views.{Fits, place as place_of, behind as behind_of, whole as whole_view};

// The state numbered n stands at base + stride * n.
#[derive(Clone, Copy)]
pub(crate) struct View {
    pub(crate) base: usize,
    pub(crate) stride: usize,
}

impl View {
    // State n at place n.
    pub(crate) fn whole() -> View
        ensures value { result ≡ whole_view }
        ensures fits { (n : ℕ) → n ≤ 240 → Fits result n }
    {
        View { base: 0, stride: 1 }
    }

    // Where state `n` stands.
    pub(crate) fn place(self, n: usize) -> usize
        requires { place_of self n ≤ 480 }
        ensures value { result ≡ place_of self n }
    {
        self.base + self.stride * n
    }

    // The view of the states behind the first `n`.
    pub(crate) fn behind(self, n: usize) -> View
        requires { place_of self n ≤ 480 }
        ensures value { result ≡ behind_of self n }
    {
        View {
            base: self.place(n),
            stride: self.stride,
        }
    }
}
