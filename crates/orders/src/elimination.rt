// Variables that are eliminated one after the other.
ghost use Rattle.std.specs.Prelude.{◌≡◌, ◌≤◌, ◌*◌, ◌∷◌, [], ◌++◌, map, length, IfOk, vec_items};
ghost use Rattle.problems.specs.Outlines.{outline};
ghost use Rattle.orders.specs.Cliques.{joined, nearby, neighbours, apart, gaps, fill, fewest, others, scopes};
ghost use Rattle.orders.specs.Orders.{numbered};

use crate::cliques::scopes;
use crate::natural::natural;
use problems::shape::Shape;
use std::alloc::{AllocError, Global};
use variables::listing::lists;

// The variables that are left, and the cliques that join them.
#[derive(Drop)]
pub(crate) struct Elimination {
    heap: Global,
    cliques: Vec<Vec<u8>>,
    left: Vec<u8>,
    ghost few: { length left.items ≤ 32 },
}

impl Elimination {
    // Nothing is eliminated yet, and each function's variables are joined.
    pub(crate) fn of(heap: Global, shape: &Shape) -> Result<Elimination, AllocError>
        ensures { IfOk result (λ e. (map vec_items e.cliques.items ≡ scopes (outline shape.now).functions)
            × (e.left.items ≡ numbered (length (outline shape.now).sizes))) }
    {
        let cliques = scopes(heap, shape)?;
        let left = natural(heap, shape)?;
        Ok(Elimination {
            heap,
            cliques,
            left,
        })
    }

    // Whether one of the cliques has both variables.
    fn joined(&self, a: u8, b: u8) -> bool
        ensures { result ≡ joined (map vec_items self.now.cliques.items) a b }
    {
        self.cliques.iter().any(|clique| lists(clique.as_slice(), a) && lists(clique.as_slice(), b))
    }

    // Whether u is another variable that v is joined with.
    fn nearby(&self, v: u8, u: u8) -> bool
        ensures { result ≡ nearby (map vec_items self.now.cliques.items) v u }
    {
        u != v && self.joined(v, u)
    }

    // The variables that are joined with v, of those that are left.
    fn neighbours(&self, v: u8) -> Result<Vec<u8>, AllocError>
        ensures near { IfOk result (λ us. us.items ≡ neighbours (map vec_items self.now.cliques.items) self.now.left.items v) }
        ensures few { IfOk result (λ us. length us.items ≤ 32) }
    {
        self.left
            .iter()
            .copied()
            .filter(|u| self.nearby(v, *u))
            .collect(self.heap)
    }

    // How many of the variables are not joined with a.
    fn apart(&self, a: u8, variables: &[u8]) -> usize
        ensures count { result ≡ apart (map vec_items self.now.cliques.items) a variables.now }
        ensures few { result ≤ length variables.now }
    {
        variables.iter().filter(|b| !self.joined(a, **b)).count()
    }

    // How many pairs of the variables are not joined.
    fn gaps(&self, variables: &[u8]) -> usize
        requires { length variables.now ≤ 32 }
        ensures count { result ≡ gaps (map vec_items self.now.cliques.items) variables.now }
        ensures few { result ≤ 32 * length variables.now }
    {
        match variables {
            [] => 0,
            [first, rest @ ..] => self.apart(*first, rest) + self.gaps(rest),
        }
    }

    // How many pairs of its neighbours are joined when v is eliminated.
    fn fill(&self, v: u8) -> Result<usize, AllocError>
        ensures { IfOk result (λ n. n ≡ fill (map vec_items self.now.cliques.items) self.now.left.items v) }
    {
        let near = self.neighbours(v)?;
        Ok(self.gaps(near.as_slice()))
    }

    // The first of the variables left whose elimination joins the fewest pairs.
    // Not min_by_key: a list of neighbours takes memory, and a key can't say that memory was wanting.
    fn fewest(&self) -> Result<u8, AllocError>
        ensures { IfOk result (λ v. v ≡ fewest (map vec_items self.now.cliques.items) self.now.left.items) }
    {
        let mut best = self.left.first().copied().unwrap_or(0);
        let mut least = self.fill(best)?;
        for v in &self.left {
            let pairs = self.fill(*v)?;
            if pairs < least {
                best = *v;
                least = pairs;
            }
        }
        Ok(best)
    }

    // Eliminates the variable that joins the fewest pairs: its neighbours are a clique from then on.
    pub(crate) fn eliminate(&mut self) -> Result<u8, AllocError>
        ensures next { IfOk result (λ v. v ≡ fewest (map vec_items self.old.cliques.items) self.old.left.items) }
        ensures joins { IfOk result (λ v. map vec_items self.new.cliques.items
            ≡ map vec_items self.old.cliques.items ++ neighbours (map vec_items self.old.cliques.items) self.old.left.items v ∷ []) }
        ensures rest { IfOk result (λ v. self.new.left.items ≡ others self.old.left.items v) }
    {
        let v = self.fewest()?;
        let clique = self.neighbours(v)?;
        self.cliques.push(clique)?;
        self.left.retain(|u| *u != v);
        Ok(v)
    }
}
