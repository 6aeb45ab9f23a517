//! A block of up to thirty-two places, with a token at each: what every make is built on.
ghost use Rattle.std.specs.Prelude.{◌≡◌, ◌<◌, ◌≤◌, length, replicate, true};
ghost use Rattle.block.specs.Meaning.{fresh_block, with_out};
ghost use Rattle.block.specs.Consents.{consents_meaning};
ghost use Rattle.std.proofs.Common.{rules};
ghost use Rattle.std.proofs.lemmas.List.{length-map, length-take};

use crate::fault::BlockFault;
use crate::interface::Block;
use crate::token::Token;
use basics::route_set::RouteSet;

#[derive(Drop)]
pub struct Consents<T: Token> {
    // Room for the most lines that there can be, since the field crates have no heap.
    tokens: [T; 32],
    lines: usize,
    whole: bool,
    ghost sized: { length tokens ≡ 32 },
    ghost some: { 1 ≤ lines },
    ghost few: { lines ≤ 32 },
    ghost fewest: { T.FEWEST ≤ lines },
}

impl<T: Token> Consents<T> {
    // Every consent is at home, and the line is whole.
    pub(crate) fn at_home(lines: usize) -> Self
        requires { (1 ≤ lines) × (lines ≤ 32) × (T.FEWEST ≤ lines) }
        ensures { ⟦<Consents<T> as Block>⟧.meaning result ≡ fresh_block lines }
    {
        Self::alike(lines, T::home())
    }

    // The same token at every place. Apart from `at_home`, so that a wrong one is refused where it stands.
    fn alike(lines: usize, token: T) -> Self
        requires { (1 ≤ lines) × (lines ≤ 32) × (T.FEWEST ≤ lines) }
        ensures { ⟦<Consents<T> as Block>⟧.meaning result ≡ record { lines = lines; out = replicate lines (T.out token); whole = true } }
    {
        Consents {
            tokens: [token; 32],
            lines,
            whole: true,
        }
    }

    // Puts a token in the place of a route's.
    fn put(&mut self, route: usize, token: T)
        requires { route < self.old.lines }
        ensures { ⟦<Consents<T> as Block>⟧.meaning self.new ≡ with_out (⟦<Consents<T> as Block>⟧.meaning self.old) route (T.out token) }
    {
        self.tokens[route] = token;
    }
}

impl<T: Token> Block for Consents<T> {
    ghost meaning = { λ b. consents_meaning T.out b.lines b.tokens b.whole };

    ghost formed = { λ b. Prim.search (rules, length-map, length-take) };

    // The count is within these bounds anyway. By them the compiler too knows that a wire pair has thirty-two, which makes the scan of
    // a give faster.
    fn lines(&self) -> usize {
        self.lines.clamp(T::FEWEST, 32)
    }

    fn is_out(&self, route: usize) -> bool {
        self.tokens[..self.lines()]
            .get(route)
            .is_some_and(T::is_out)
    }

    fn is_whole(&self) -> bool {
        self.whole
    }

    fn give(&mut self, route: usize, hostile: &RouteSet) -> Result<(), BlockFault> {
        self.may_give(route, hostile)?;
        self.put(route, T::away());
        Ok(())
    }

    fn take_back(&mut self, route: usize) -> Result<(), BlockFault> {
        self.may_take_back(route)?;
        self.put(route, T::home());
        Ok(())
    }

    // It and `mend` differ in a truth value and a fault: each reads as its rule.
    fn cut(&mut self) -> Result<(), BlockFault> {
        if !self.whole {
            return Err(BlockFault::LineCut);
        }
        self.whole = false;
        Ok(())
    }

    fn mend(&mut self) -> Result<(), BlockFault> {
        if self.whole {
            return Err(BlockFault::LineWhole);
        }
        self.whole = true;
        Ok(())
    }
}
