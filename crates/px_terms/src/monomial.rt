ghost use Rattle.std.specs.Prelude.{◌≡◌, ◌≤◌, length};

/// A coefficient and the first `degree` of at most `N` variables, by their numbers.
#[derive(Clone, Copy)]
pub struct Monomial<const N: usize> {
    pub(crate) coefficient: u32,
    pub(crate) degree: usize,
    pub(crate) vars: [u32; N],
    ghost few: { degree ≤ N },
    ghost room: { length vars ≡ N },
}

impl<const N: usize> Monomial<N> {
    ghost use Rattle.std.specs.Prelude.{◌≡◌, ◌↔◌, ◌≤◌, ℕ, length, IfSome, IsSome};
    ghost use Rattle.px_terms.specs.Terms.{Term};
    ghost use Rattle.px_terms.specs.Monomials.{term_of};

    /// A monomial of these variables, by their numbers; none where they are more than `N`. Takes no memory.
    pub fn new(coefficient: u32, vars: &[u32]) -> Option<Monomial<N>>
        ensures made { IfSome result (λ m. term_of m ≡ record { coefficient = coefficient; vars = vars.now }) }
        ensures some { IsSome result ↔ length vars.now ≤ N }
    {
        if vars.len() > N {
            return None;
        }
        let mut all = [0; N];
        all[..vars.len()].copy_from_slice(vars);
        Some(Monomial {
            coefficient,
            degree: vars.len(),
            vars: all,
        })
    }

    /// The coefficient. Takes no memory.
    pub fn coefficient(&self) -> u32
        ensures { result ≡ (term_of self.now).coefficient }
    {
        self.coefficient
    }

    /// The variables in order, by their numbers, repeats kept. Takes no memory.
    pub fn vars(&self) -> &[u32]
        ensures { result.now ≡ (term_of self.now).vars }
    {
        &self.vars[..self.degree]
    }
}
